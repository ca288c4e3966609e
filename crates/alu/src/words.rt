// The instructions that work on each word of a register, in the order of the table.

ghost use Rattle.std.specs.Prelude.{◌≡◌, ℕ};
ghost use Rattle.alu_rules.specs.Lane.{MAXWS, MINWS};
ghost use Rattle.alu_rules.specs.Lane.{AU, OR, MLHU, MLHCU, AND, CLZW, ROTW, SFWU};
ghost use Rattle.alu_rules.specs.Across.{words₁, words₂};

use crate::across::{at_pairs, at_words};
use register::Register;

// AU.
pub fn add(a: Register, b: Register) -> Register
    ensures { result ≡ words₂ AU a b }
{
    at_pairs(alu_lanes::wrapped::add, a, b)
}

// OR.
pub fn or(a: Register, b: Register) -> Register
    ensures { result ≡ words₂ OR a b }
{
    at_pairs(alu_lanes::bitwise::or, a, b)
}

// BCW: word 3, the leftmost one. No word goes through an operation, so there is none to hand on.
pub fn broadcast(a: Register) -> Register
    ensures { result ≡ words₁ (λ (w : ℕ). a.w3) a }
{
    Register {
        w0: a.w3,
        w1: a.w3,
        w2: a.w3,
        w3: a.w3,
    }
}

// MAXWS.
pub fn larger(a: Register, b: Register) -> Register
    ensures { result ≡ words₂ MAXWS a b }
{
    at_pairs(alu_lanes::ordered::larger, a, b)
}

// MINWS.
pub fn smaller(a: Register, b: Register) -> Register
    ensures { result ≡ words₂ MINWS a b }
{
    at_pairs(alu_lanes::ordered::smaller, a, b)
}

// MLHU.
pub fn multiply_low_halves(a: Register, b: Register) -> Register
    ensures { result ≡ words₂ MLHU a b }
{
    at_pairs(alu_lanes::multiplied::multiply_low_halves, a, b)
}

// MLHCU.
pub fn multiply_low_halves_by(a: Register, field: u32) -> Register
    ensures { result ≡ words₁ (λ (w : ℕ). MLHCU w field) a }
{
    at_words(|w| alu_lanes::multiplied::multiply_low_half_by(w, field), a)
}

// AND.
pub fn and(a: Register, b: Register) -> Register
    ensures { result ≡ words₂ AND a b }
{
    at_pairs(alu_lanes::bitwise::and, a, b)
}

// CLZW.
pub fn leading_zeros(a: Register) -> Register
    ensures { result ≡ words₁ CLZW a }
{
    at_words(alu_lanes::counted::leading_zeros, a)
}

// ROTW.
pub fn rotate_right(a: Register, b: Register) -> Register
    ensures { result ≡ words₂ ROTW a b }
{
    at_pairs(alu_lanes::moved::rotate_right, a, b)
}

// SFWU, b - a: the table subtracts its first operand from its second.
pub fn subtract_from(a: Register, b: Register) -> Register
    ensures { result ≡ words₂ SFWU a b }
{
    at_pairs(alu_lanes::wrapped::subtract_from, a, b)
}
