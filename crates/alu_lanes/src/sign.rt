// Signed sums and products. Sums are made in unsigned numbers of the lane's own width, so that no jump depends on a lane; they and their proof are there once.

ghost use Rattle.std.specs.Prelude.{◌≡◌, ◌+◌, ◌-◌, ◌%◌, ◌^◌, ◌<◌, ◌*ℤ◌, if◌then◌else◌, ltb};
ghost use Rattle.std.proofs.Common.{lit<};
ghost use Rattle.alu_rules.specs.Width.{signed};
ghost use Rattle.alu_rules.specs.Lane.{multiply_add, multiply_subtract};
ghost use Rattle.alu_lanes.specs.Clamped.{in_numbers, clamped_lane};
ghost use Rattle.alu_lanes.specs.Sign.{exact_sum, sign_lost};

use crate::clamped::Clamped;
use register::halves::{Bits, Halved};
use std::hint::select_unpredictable;

// An unsigned number that wraps, read as a signed one in two's complement. What differs between the widths is their numerals alone.
pub(crate) trait Lane: Bits {
    // Whether it is below its top bit, and so not negative.
    fn is_low(self) -> bool
        ensures value { result ≡ ltb (Self.number self) (2 ^ (Self.width - 1)) }
        ensures fits { Self.number self < 2 ^ Self.width };

    // With every bit turned, or as it is.
    fn turned_if(self, yes: bool) -> Self
        ensures value { Self.number result ≡ (if yes then 2 ^ Self.width - 1 - Self.number self else Self.number self) }
        ensures fits { Self.number self < 2 ^ Self.width };

    // The sum, and 1 more where a bit is carried in.
    fn sum(self, other: Self, carry: bool) -> Self
        ensures { Self.number result ≡ ((Self.number self + Self.number other) % 2 ^ Self.width + (if carry then 1 else 0)) % 2 ^ Self.width };

    // The greatest signed number, or the least.
    fn limit(greatest: bool) -> Self
        ensures { Self.number result ≡ (if greatest then 2 ^ (Self.width - 1) - 1 else 2 ^ (Self.width - 1)) };

    ghost some: { 0 < Self.width };
}

impl Lane for u16 {
    ghost some = { lit< tt };

    fn is_low(self) -> bool {
        self < 0x8000
    }

    fn turned_if(self, yes: bool) -> u16 {
        select_unpredictable(yes, 0xFFFF - self, self)
    }

    fn sum(self, other: u16, carry: bool) -> u16 {
        self.wrapping_add(other).wrapping_add(u16::from(carry))
    }

    fn limit(greatest: bool) -> u16 {
        select_unpredictable(greatest, 0x7FFF, 0x8000)
    }
}

impl Lane for u32 {
    ghost some = { lit< tt };

    fn is_low(self) -> bool {
        self < 0x8000_0000
    }

    fn turned_if(self, yes: bool) -> u32 {
        select_unpredictable(yes, 0xFFFF_FFFF - self, self)
    }

    fn sum(self, other: u32, carry: bool) -> u32 {
        self.wrapping_add(other).wrapping_add(u32::from(carry))
    }

    fn limit(greatest: bool) -> u32 {
        select_unpredictable(greatest, 0x7FFF_FFFF, 0x8000_0000)
    }
}

impl Lane for u64 {
    ghost some = { lit< tt };

    fn is_low(self) -> bool {
        self < 0x8000_0000_0000_0000
    }

    fn turned_if(self, yes: bool) -> u64 {
        select_unpredictable(yes, 0xFFFF_FFFF_FFFF_FFFF - self, self)
    }

    fn sum(self, other: u64, carry: bool) -> u64 {
        self.wrapping_add(other).wrapping_add(u64::from(carry))
    }

    fn limit(greatest: bool) -> u64 {
        select_unpredictable(greatest, 0x7FFF_FFFF_FFFF_FFFF, 0x8000_0000_0000_0000)
    }
}

// Of two numbers and their wrapped sum, whether each is below its top bit, and so not negative. The exact sum is beyond the width exactly where both
// numbers have one sign and the wrapped sum has the other.
#[tactic(auto, unfolding(crate::specs::Sign::sign_lost))]
fn sign_lost(x: bool, y: bool, sum: bool) -> bool
    ensures { result ≡ sign_lost x y sum }
{
    x == y && x != sum
}

// x + y, or x - y, clamped: in two's complement -y is z + 1, where z has every bit of y turned.
pub(crate) fn clamped_sum<L: Lane>(minus: bool, x: L, y: L) -> Clamped<L>
    ensures { in_numbers L.number result ≡ clamped_lane L.width (exact_sum L.width minus (L.number x) (L.number y)) }
{
    let z = y.turned_if(minus);
    let sum = x.sum(z, minus);
    let low = x.is_low();
    let marked = sign_lost(low, z.is_low(), sum.is_low());
    Clamped {
        value: select_unpredictable(marked, L::limit(low), sum),
        marked,
    }
}

// A number that has room for the signed product of two of its halves.
pub(crate) trait Product: Lane + Halved {
    fn product(a: Self::Half, b: Self::Half) -> Self
        ensures { signed Self.width (Self.number result) ≡ signed Self.Half.width (Self.Half.number a) *ℤ signed Self.Half.width (Self.Half.number b) };
}

impl Product for u32 {
    fn product(a: u16, b: u16) -> u32 {
        (a.cast_signed() as i32 * b.cast_signed() as i32).cast_unsigned()
    }
}

impl Product for u64 {
    fn product(a: u32, b: u32) -> u64 {
        (a.cast_signed() as i64 * b.cast_signed() as i64).cast_unsigned()
    }
}

// rs1 + a x b, or rs1 - a x b, clamped.
pub(crate) fn clamped_multiply<W: Product>(
    subtract: bool,
    rs1: W,
    a: W::Half,
    b: W::Half,
) -> Clamped<W>
    ensures { in_numbers W.number result ≡ clamped_lane W.width (if subtract then multiply_subtract W.Half.width (W.number rs1) (W.Half.number a) (W.Half.number b)
        else multiply_add W.Half.width (W.number rs1) (W.Half.number a) (W.Half.number b)) }
{
    clamped_sum(subtract, rs1, W::product(a, b))
}
