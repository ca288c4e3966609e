// The instructions that work on each halfword of a register, in the order of the table.

ghost use Rattle.std.specs.Prelude.{ℕ, ◌<◌, ◌≡◌};
ghost use Rattle.register.specs.Halves.{high, low};
ghost use Rattle.alu_rules.specs.Lane.{SHRHI, CNTIH, AHS, SFHS};
ghost use Rattle.alu_rules.specs.Across.{words₁, clamped_halfwords};
ghost use Rattle.alu.specs.declared.halfwords.ClampedHalves.{ClampedHalves as Halves};
ghost use Rattle.alu.specs.Halves.{value_of, bits_of, clamped_halves, of_halves};

use crate::across::{at_pairs, at_words};
use crate::marks::{bits_of_halfwords, mark_of};
use alu_lanes::clamped;
use alu_lanes::clamped::Clamped;
use alu_rules::Outcome;
use register::Register;
use register::halves::Halved;

// A word of two clamped halfwords.
#[derive(Clone, Copy)]
pub(crate) struct ClampedHalves {
    pub hi: Clamped<u16>,
    pub lo: Clamped<u16>,
}

impl ClampedHalves {
    fn value(self) -> u32
        ensures { result ≡ value_of self }
    {
        u32::join(self.hi.value, self.lo.value)
    }

    // Their marks: bit 0 for the low one, bit 1 for the high one.
    fn bits(self) -> u32
        ensures { (result ≡ bits_of self) × (result < 4) }
    {
        bits_of_halfwords(self.hi.marked, self.lo.marked)
    }
}

// f at the matching halves of two words.
fn at_halves<F: Fn(u16, u16) -> Clamped<u16>>(f: F, a: u32, b: u32) -> ClampedHalves
    requires { F.IsAlwaysCallable f }
    ensures hi { F.post f (high 16 a) (high 16 b) result.hi }
    ensures lo { F.post f (low 16 a) (low 16 b) result.lo }
{
    ClampedHalves {
        hi: f(a.half(true), b.half(true)),
        lo: f(a.half(false), b.half(false)),
    }
}

fn add_halves(a: u32, b: u32) -> ClampedHalves
    ensures { result ≡ clamped_halves AHS a b }
{
    at_halves(clamped::add_clamped, a, b)
}

fn subtract_halves_from(a: u32, b: u32) -> ClampedHalves
    ensures { result ≡ clamped_halves SFHS a b }
{
    at_halves(clamped::subtract_from_clamped, a, b)
}

// SHRHI.
pub fn shift_right(a: Register, field: u32) -> Register
    ensures { result ≡ words₁ (λ (w : ℕ). SHRHI w field) a }
{
    at_words(|w| alu_lanes::moved::shift_halfwords_right(w, field), a)
}

// CNTIH.
pub fn ones(a: Register) -> Register
    ensures { result ≡ words₁ CNTIH a }
{
    at_words(alu_lanes::counted::ones_in_halfwords, a)
}

// AHS, its value alone: for callers that ask for no mark.
pub fn add_clamped(a: Register, b: Register) -> Register
    ensures { result ≡ (clamped_halfwords AHS a b).value }
{
    at_pairs(|x, y| add_halves(x, y).value(), a, b)
}

// SFHS, b - a: the table subtracts its first operand from its second. Its value alone.
pub fn subtract_from_clamped(a: Register, b: Register) -> Register
    ensures { result ≡ (clamped_halfwords SFHS a b).value }
{
    at_pairs(|x, y| subtract_halves_from(x, y).value(), a, b)
}

// f at each word of two registers, with the mark.
fn outcome<F: Fn(u32, u32) -> ClampedHalves>(f: F, a: Register, b: Register) -> Outcome
    requires { F.IsAlwaysCallable f }
    ensures { (w0 w1 w2 w3 : Halves) × F.post f a.w0 b.w0 w0 × F.post f a.w1 b.w1 w1 × F.post f a.w2 b.w2 w2 × F.post f a.w3 b.w3 w3 × (result ≡ of_halves w0 w1 w2 w3) }
{
    let w0 = f(a.w0, b.w0);
    let w1 = f(a.w1, b.w1);
    let w2 = f(a.w2, b.w2);
    let w3 = f(a.w3, b.w3);
    Outcome {
        value: Register {
            w0: w0.value(),
            w1: w1.value(),
            w2: w2.value(),
            w3: w3.value(),
        },
        mark: mark_of(w0.bits(), w1.bits(), w2.bits(), w3.bits()),
    }
}

// AHS, with its mark.
pub fn add_marked(a: Register, b: Register) -> Outcome
    ensures { result ≡ clamped_halfwords AHS a b }
{
    outcome(add_halves, a, b)
}

// SFHS, with its mark.
pub fn subtract_from_marked(a: Register, b: Register) -> Outcome
    ensures { result ≡ clamped_halfwords SFHS a b }
{
    outcome(subtract_halves_from, a, b)
}
