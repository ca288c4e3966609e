// The numbers that a word has for the operands of a form, as text.

ghost use Rattle.std.specs.Prelude.{◌≤◌, ◌<◌, length};
ghost use Rattle.text_rules.specs.Forms.{form_at};
ghost use Rattle.text_rules.specs.Listing.{numbers_text, numbers_in};
ghost use Rattle.text_rules.specs.Number.Notation.{decimal};
ghost use Rattle.text_writer.specs.Put.{Put};

use crate::decimal::put_decimal;
use text_table::Forms;

// A space and a decimal number for each. The answer is how many bytes they have.
pub(crate) fn put_numbers(out: &mut [u8], forms: &Forms, row: usize, w: u32) -> usize
    requires { (row < 25) × (length (numbers_text decimal (numbers_in w (form_at row))) ≤ length out.old) }
    ensures { Put (numbers_text decimal (numbers_in w (form_at row))) result out.old out.new }
{
    let mut at = 0;
    for slot in &forms.rows[row].operands {
        let Some(operand) = slot else {
            break;
        };
        out[at] = b' ';
        let start = at + 1;
        let size = put_decimal(&mut out[start..], w / operand.weight % operand.limit);
        at = start + size;
    }
    at
}
