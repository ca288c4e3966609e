// Digits, decimal and hex: program text has them, and scripts.

ghost use Rattle.std.specs.Prelude.{◌≡◌};
ghost use Rattle.text_rules.specs.Number.{digit_of};

// What a byte says as a digit: 0 to 15, the letters in upper case, and 16 where it is none, so that one test against a base is enough.
pub fn digit(b: u8) -> u64
    ensures { result ≡ digit_of b }
{
    match b {
        b'0'..=b'9' => (b - b'0') as u64,
        b'A'..=b'F' => (b - b'A') as u64 + 10,
        _ => 16,
    }
}
