// MLHU and MLHCU: unsigned products of low halves.

ghost use Rattle.std.specs.Prelude.{◌≡◌};
ghost use Rattle.alu_rules.specs.Lane.{MLHU, MLHCU};

// MLHU.
pub fn multiply_low_halves(a: u32, b: u32) -> u32
    ensures { result ≡ MLHU a b }
{
    (a % 0x1_0000) * (b % 0x1_0000)
}

// MLHCU. The constant is the low five bits of the field.
pub fn multiply_low_half_by(a: u32, field: u32) -> u32
    ensures { result ≡ MLHCU a field }
{
    (a % 0x1_0000) * (field % 32)
}
