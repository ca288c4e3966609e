// The lines of END and of REFUSED.

ghost use Rattle.std.specs.Prelude.{◌≤◌, ◌%◌, ◌≡◌, [], ◌∷◌, ◌++◌, length};
ghost use Rattle.buffer.specs.Front.{at_front};
ghost use Rattle.row_rules.specs.Text.{digit, two_digits, newline};
ghost use Rattle.trace_rules.specs.JobText.{end_text, refused_text};

use row::digits;

fn put_one_digit(out: &mut [u8], n: u32)
    requires { 2 ≤ length out.old }
    ensures { out.new ≡ at_front (digit (n % 10) ∷ newline) out.old }
{
    out[0] = digits::units(n);
    out[1] = b'\n';
}

fn put_two_digits(out: &mut [u8], n: u32)
    requires { 3 ≤ length out.old }
    ensures { out.new ≡ at_front (two_digits n ++ newline) out.old }
{
    out[0] = digits::tens(n);
    out[1] = digits::units(n);
    out[2] = b'\n';
}

fn put_end_word(out: &mut [u8])
    requires { 4 ≤ length out.old }
    ensures { out.new ≡ at_front (69 ∷ 78 ∷ 68 ∷ 32 ∷ []) out.old }
{
    out[..4].copy_from_slice(b"END ");
}

pub(crate) fn put_end(out: &mut [u8], count: u32)
    requires { 7 ≤ length out.old }
    ensures { out.new ≡ at_front (end_text count) out.old }
{
    put_end_word(out);
    put_two_digits(&mut out[4..], count);
}

fn put_refused_word(out: &mut [u8])
    requires { 8 ≤ length out.old }
    ensures { out.new ≡ at_front (82 ∷ 69 ∷ 70 ∷ 85 ∷ 83 ∷ 69 ∷ 68 ∷ 32 ∷ []) out.old }
{
    out[..8].copy_from_slice(b"REFUSED ");
}

pub(crate) fn refused_size(number: u32) -> usize
    ensures { result ≡ length (refused_text number) }
{
    if number < 10 {
        return 10;
    }
    11
}

pub(crate) fn put_refused(out: &mut [u8], number: u32)
    requires { length (refused_text number) ≤ length out.old }
    ensures { out.new ≡ at_front (refused_text number) out.old }
{
    put_refused_word(out);
    if number < 10 {
        put_one_digit(&mut out[8..], number);
    } else {
        put_two_digits(&mut out[8..], number);
    }
}
