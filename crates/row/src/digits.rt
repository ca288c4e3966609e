// Digits and hyphens at the front of a buffer.

ghost use Rattle.std.specs.Prelude.{◌/◌, ◌%◌, ◌≤◌, ◌<◌, ◌≡◌, length};
ghost use Rattle.buffer.specs.Front.{at_front};
ghost use Rattle.row_rules.specs.Text.{digit, two_digits, hex_digits, hyphens};

// The code of a digit, computed: a constant table would be built anew at each use.
fn digit_of(d: u32) -> u8
    requires { d < 16 }
    ensures { result ≡ digit d }
{
    if d < 10 {
        (d + 48) as u8
    } else {
        (d + 55) as u8
    }
}

// The last decimal digit but one of a number.
pub fn tens(n: u32) -> u8
    ensures { result ≡ digit (n / 10 % 10) }
{
    digit_of(n / 10 % 10)
}

// The last decimal digit of a number.
pub fn units(n: u32) -> u8
    ensures { result ≡ digit (n % 10) }
{
    digit_of(n % 10)
}

// The last hex digit of a number.
pub fn hex(n: u32) -> u8
    ensures { result ≡ digit (n % 16) }
{
    digit_of(n % 16)
}

pub(crate) fn put_two(out: &mut [u8], n: u32)
    requires { 2 ≤ length out.old }
    ensures { out.new ≡ at_front (two_digits n) out.old }
{
    out[0] = tens(n);
    out[1] = units(n);
}

// The last k hex digits, from the last one back.
pub(crate) fn put_hex(out: &mut [u8], k: usize, w: u32)
    requires { k ≤ length out.old }
    ensures { out.new ≡ at_front (hex_digits k w) out.old }
{
    let mut rest = w;
    for i in (0..k).rev() {
        out[i] = hex(rest);
        rest /= 16;
    }
}

pub(crate) fn put_hyphens(out: &mut [u8], k: usize)
    requires { k ≤ length out.old }
    ensures { out.new ≡ at_front (hyphens k) out.old }
{
    out[..k].fill(b'-');
}
