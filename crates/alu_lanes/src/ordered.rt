// MAXWS and MINWS: the larger and the smaller of two signed words.

ghost use Rattle.std.specs.Prelude.{◌≡◌, int_lt};
ghost use Rattle.alu_rules.specs.Width.{signed};
ghost use Rattle.alu_rules.specs.Lane.{MAXWS, MINWS};

fn less(a: u32, b: u32) -> bool
    ensures { result ≡ int_lt (signed 32 a) (signed 32 b) }
{
    a.cast_signed() < b.cast_signed()
}

// MAXWS.
pub fn larger(a: u32, b: u32) -> u32
    ensures { result ≡ MAXWS a b }
{
    if less(a, b) { b } else { a }
}

// MINWS.
pub fn smaller(a: u32, b: u32) -> u32
    ensures { result ≡ MINWS a b }
{
    if less(a, b) { a } else { b }
}
