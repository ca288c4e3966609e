// The line of a word: that of its instruction, or `.word` where no instruction's line gives it.

ghost use Rattle.std.specs.Prelude.{◌+◌, ◌/◌, ◌%◌, ◌≤◌, ◌<◌, ◌^◌, ◌≡◌, cond, ltb, length};
ghost use Rattle.text_rules.specs.Forms.{form_at, word_form};
ghost use Rattle.text_rules.specs.Listing.{line_text, numbers_in, line_of_word};
ghost use Rattle.text_rules.specs.Unnamed.{leaves_out, unnamed};
ghost use Rattle.text_writer.specs.Put.{Put};

use crate::name::put_name;
use crate::numbers::put_numbers;
use row::digits::hex;
use text_table::Forms;

// The one row of an instruction that may give the word, by the bits that no operand has.
fn row_by_bits(w: u32) -> usize
    ensures { (result ≡ cond (ltb w 0x1000000) 0 (cond (ltb w 0x1800000) (1 + w / 0x100000 % 8) (9 + w / 0x8000 % 16))) × (result < 25) }
{
    if w < 0x100_0000 {
        return 0;
    }
    if w < 0x180_0000 {
        return 1 + (w / 0x10_0000 % 8) as usize;
    }
    9 + (w / 0x8000 % 16) as usize
}

// Whether a field that a line of this code does not name is not zero: any of NOP; of SHRHI the highest bit of rs2's; rs2 of CNTIH, BCW and CLZW.
fn leaves_out(code: u32, w: u32) -> bool
    ensures { result ≡ leaves_out code w }
{
    if code == 0 {
        return w % 0x8000 != 0;
    }
    let field = w / 0x400 % 32;
    match code {
        1 => field >= 16,
        3 | 6 | 12 => field != 0,
        _ => false,
    }
}

// Whether no instruction's line gives the word. Words are tested all at once to be below 2^25; a type for one that is would be made anew for each, and is no plainer.
fn is_unnamed(w: u32) -> bool
    requires { w < 2 ^ 25 }
    ensures { result ≡ unnamed w }
{
    if w < 0x180_0000 {
        return false;
    }
    if w / 0x8_0000 % 16 != 0 {
        return true;
    }
    leaves_out(w / 0x8000 % 16, w)
}

// The line of the instruction in that row: its name, the numbers that the word has for it and a newline. The answer is how many bytes it has.
fn put_instruction(out: &mut [u8], forms: &Forms, row: usize, w: u32) -> usize
    requires { (row < 25) × (length (line_text (form_at row) (numbers_in w (form_at row))) ≤ length out.old) }
    ensures { Put (line_text (form_at row) (numbers_in w (form_at row))) result out.old out.new }
{
    let name = put_name(out, forms, row);
    let size = put_numbers(&mut out[name..], forms, row, w);
    let end = name + size;
    out[end] = b'\n';
    end + 1
}

// The line of any word: `.word`, a space, seven hex digits and a newline. The answer is how many bytes it has. They are stored where they belong: a line put together
// beside the buffer and copied takes more than half as long again.
fn put_word(out: &mut [u8], w: u32) -> usize
    requires { (w < 2 ^ 25) × (14 ≤ length out.old) }
    ensures { Put (line_text word_form (numbers_in w word_form)) result out.old out.new }
{
    out[0] = b'.';
    out[1] = b'w';
    out[2] = b'o';
    out[3] = b'r';
    out[4] = b'd';
    out[5] = b' ';
    out[6] = hex(w / 0x100_0000);
    out[7] = hex(w / 0x10_0000);
    out[8] = hex(w / 0x1_0000);
    out[9] = hex(w / 0x1000);
    out[10] = hex(w / 0x100);
    out[11] = hex(w / 0x10);
    out[12] = hex(w);
    out[13] = b'\n';
    14
}

pub(crate) fn put_line(out: &mut [u8], forms: &Forms, w: u32) -> usize
    requires { (w < 2 ^ 25) × (length (line_of_word w) ≤ length out.old) }
    ensures { Put (line_of_word w) result out.old out.new }
{
    if is_unnamed(w) {
        return put_word(out, w);
    }
    put_instruction(out, forms, row_by_bits(w), w)
}
