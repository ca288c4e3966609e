// Numbers in decimal and in hexadecimal digits.

ghost use Rattle.std.specs.Prelude.{◌≤◌, ◌≡◌};
ghost use Rattle.script.specs.Numbers.{said_in};

use text_table::digit;

// 2^32: no number of a script is so large.
const LIMIT: u64 = 0x1_0000_0000;

// What digits of a base say: a number below 2^32, or none. It is left as soon as the number is too large, so that it never wraps, however many digits follow.
fn in_base(base: u64, digits: &[u8]) -> Option<u32>
    requires { (1 ≤ base) × (base ≤ 16) }
    ensures { result ≡ said_in base digits.now }
{
    if digits.is_empty() {
        return None;
    }
    let mut value: u64 = 0;
    for b in digits {
        let d = digit(*b);
        if d >= base {
            return None;
        }
        value = base * value + d;
        if value >= LIMIT {
            return None;
        }
    }
    Some(value as u32)
}

// What decimal digits say; zeros in front change nothing.
pub fn decimal(digits: &[u8]) -> Option<u32>
    ensures { result ≡ said_in 10 digits.now }
{
    in_base(10, digits)
}

// What hexadecimal digits say, the letters in upper case.
pub fn hex(digits: &[u8]) -> Option<u32>
    ensures { result ≡ said_in 16 digits.now }
{
    in_base(16, digits)
}
