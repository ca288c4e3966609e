// OR and AND of two words.

ghost use Rattle.std.specs.Prelude.{◌≡◌};
ghost use Rattle.alu_rules.specs.Lane.{OR, AND};

// OR.
pub fn or(a: u32, b: u32) -> u32
    ensures { result ≡ OR a b }
{
    a | b
}

// AND.
pub fn and(a: u32, b: u32) -> u32
    ensures { result ≡ AND a b }
{
    a & b
}
