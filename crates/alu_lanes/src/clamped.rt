// The clamping lanes: the multiply family with halves of 16 or 32 bits, and AHS and SFHS. Each answers its value and whether the clamp changed it, from one sum.

ghost use Rattle.std.specs.Prelude.{◌≡◌, if◌then◌else◌};
ghost use Rattle.alu_rules.specs.Lane.{multiply_add, multiply_subtract, AHS, SFHS};
ghost use Rattle.alu_lanes.specs.Clamped.{clamped_lane, in_numbers};

use crate::sign::{clamped_multiply, clamped_sum};
use register::halves::Halved;

// A lane of any width: the exact result clamped, and whether that changed it.
#[derive(Clone, Copy)]
pub struct Clamped<L> {
    pub value: L,
    pub marked: bool,
}

// A lane of the multiply family, a word or a long: rs1 + a x b, or rs1 - a x b, where a and b are as wide as its halves.
pub trait Multiplied: Halved {
    fn multiply(subtract: bool, rs1: Self, a: Self::Half, b: Self::Half) -> Clamped<Self>
        ensures { in_numbers Self.number result ≡ clamped_lane Self.width (if subtract then multiply_subtract Self.Half.width (Self.number rs1) (Self.Half.number a) (Self.Half.number b)
            else multiply_add Self.Half.width (Self.number rs1) (Self.Half.number a) (Self.Half.number b)) };
}

// SIMAL, SIMAH, SIMSL and SIMSH.
impl Multiplied for u32 {
    fn multiply(subtract: bool, rs1: u32, a: u16, b: u16) -> Clamped<u32> {
        clamped_multiply(subtract, rs1, a, b)
    }
}

// SLMAL, SLMAH, SLMSL and SLMSH.
impl Multiplied for u64 {
    fn multiply(subtract: bool, rs1: u64, a: u32, b: u32) -> Clamped<u64> {
        clamped_multiply(subtract, rs1, a, b)
    }
}

// AHS: a + b.
pub fn add_clamped(a: u16, b: u16) -> Clamped<u16>
    ensures { result ≡ clamped_lane 16 (AHS a b) }
{
    clamped_sum(false, a, b)
}

// SFHS, b - a: the table subtracts its first operand from its second.
pub fn subtract_from_clamped(a: u16, b: u16) -> Clamped<u16>
    ensures { result ≡ clamped_lane 16 (SFHS a b) }
{
    clamped_sum(true, b, a)
}
