// AU and SFWU: words added and subtracted modulo 2^32.

ghost use Rattle.std.specs.Prelude.{◌≡◌};
ghost use Rattle.alu_rules.specs.Lane.{AU, SFWU};

// AU.
pub fn add(a: u32, b: u32) -> u32
    ensures { result ≡ AU a b }
{
    a.wrapping_add(b)
}

// SFWU, b - a: the table subtracts its first operand from its second.
pub fn subtract_from(a: u32, b: u32) -> u32
    ensures { result ≡ SFWU a b }
{
    b.wrapping_sub(a)
}
