// The halves of a word, and words and longs put together from halves.

ghost use Rattle.std.specs.Prelude.{◌+◌, ◌≡◌, ◌<◌, ℕ, refl};
ghost use Rattle.register.specs.Halves.{half, join};
ghost use Rattle.register.specs.Layout.{with_half};

use std::hint::select_unpredictable;

// A number of `width` bits. `number` says which.
pub trait Bits: Copy {
    ghost width: { ℕ };

    ghost number: { Self → ℕ };
}

impl Bits for u16 {
    ghost width = { 16 };

    ghost number = { λ x. x };
}

impl Bits for u32 {
    ghost width = { 32 };

    ghost number = { λ x. x };
}

impl Bits for u64 {
    ghost width = { 64 };

    ghost number = { λ x. x };
}

// A number of two halves side by side: a word of two halfwords, a long of two words.
pub trait Halved: Bits {
    type Half: Bits;

    // The high or the low half.
    fn half(self, high: bool) -> Self::Half
        ensures { Self.Half.number result ≡ half Self.Half.width high (Self.number self) };

    // The number of two halves.
    fn join(hi: Self::Half, lo: Self::Half) -> Self
        ensures { Self.number result ≡ join Self.Half.width (Self.Half.number hi) (Self.Half.number lo) };

    ghost twice: { Self.width ≡ Self.Half.width + Self.Half.width };
}

impl Halved for u32 {
    type Half = u16;

    ghost twice = { refl };

    fn half(self, high: bool) -> u16 {
        if high {
            (self / 0x1_0000) as u16
        } else {
            (self % 0x1_0000) as u16
        }
    }

    fn join(hi: u16, lo: u16) -> u32 {
        (hi as u32) * 0x1_0000 + (lo as u32)
    }
}

impl Halved for u64 {
    type Half = u32;

    ghost twice = { refl };

    fn half(self, high: bool) -> u32 {
        if high {
            (self / 0x1_0000_0000) as u32
        } else {
            (self % 0x1_0000_0000) as u32
        }
    }

    fn join(hi: u32, lo: u32) -> u64 {
        (hi as u64) * 0x1_0000_0000 + (lo as u64)
    }
}

// The word of halfwords k and k + 1, with halfword i of the register set to v. Both halves are there and one is taken, so that no jump is needed.
#[tactic(auto, unfolding(crate::specs::Layout::with_half))]
pub(crate) fn put_half(w: u32, k: usize, i: usize, v: u16) -> u32
    requires { k < 8 }
    ensures { result ≡ with_half i v k w }
{
    let hi = select_unpredictable(i == k + 1, v, w.half(true));
    let lo = select_unpredictable(i == k, v, w.half(false));
    u32::join(hi, lo)
}
