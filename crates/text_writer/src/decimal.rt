// Decimal numbers without leading zeros.

ghost use Rattle.std.specs.Prelude.{◌≤◌, ◌<◌, length};
ghost use Rattle.text_rules.specs.Number.{digits_for};
ghost use Rattle.text_rules.specs.Number.Notation.{decimal};
ghost use Rattle.text_writer.specs.Put.{Put};

// The digits of a number that has at least three, and how many they are. No number of a line has more than five; a loop would take longer.
fn put_digits(out: &mut [u8], v: u32) -> usize
    requires { (100 ≤ v) × (v < 65536) × (length (digits_for decimal v) ≤ length out.old) }
    ensures { Put (digits_for decimal v) result out.old out.new }
{
    if v < 1000 {
        out[0] = (48 + v / 100) as u8;
        out[1] = (48 + v / 10 % 10) as u8;
        out[2] = (48 + v % 10) as u8;
        return 3;
    }
    if v < 10000 {
        out[0] = (48 + v / 1000) as u8;
        out[1] = (48 + v / 100 % 10) as u8;
        out[2] = (48 + v / 10 % 10) as u8;
        out[3] = (48 + v % 10) as u8;
        return 4;
    }
    out[0] = (48 + v / 10000) as u8;
    out[1] = (48 + v / 1000 % 10) as u8;
    out[2] = (48 + v / 100 % 10) as u8;
    out[3] = (48 + v / 10 % 10) as u8;
    out[4] = (48 + v % 10) as u8;
    5
}

// The digits of any number of a line, and how many they are. Most are those of registers, with one digit or two.
pub(crate) fn put_decimal(out: &mut [u8], v: u32) -> usize
    requires { (v < 65536) × (length (digits_for decimal v) ≤ length out.old) }
    ensures { Put (digits_for decimal v) result out.old out.new }
{
    if v < 10 {
        out[0] = (48 + v) as u8;
        return 1;
    }
    if v < 100 {
        out[0] = (48 + v / 10) as u8;
        out[1] = (48 + v % 10) as u8;
        return 2;
    }
    put_digits(out, v)
}
