// Multiply-add and multiply-subtract across registers: long, subtract and high are the three bits that choose.

ghost use Rattle.std.specs.Prelude.{◌≡◌};
ghost use Rattle.alu_lanes.specs.Clamped.{clamped_lane, in_numbers};
ghost use Rattle.alu_rules.specs.Across.{clamped_words, clamped_longs, multiply_lane, multiplied};

use crate::marks::{mark_of_longs, mark_of_words};
use alu_lanes::clamped::{Clamped, Multiplied};
use alu_rules::Outcome;
use register::Register;
use register::halves::Halved;

// One lane, a word or a long: the same half of rs3 and of rs2.
fn multiply_lane<W: Multiplied>(subtract: bool, high: bool, rs1: W, rs2: W, rs3: W) -> Clamped<W>
    ensures { in_numbers W.number result ≡ clamped_lane W.width (multiply_lane W.Half.width subtract high (W.number rs1) (W.number rs2) (W.number rs3)) }
{
    W::multiply(subtract, rs1, rs3.half(high), rs2.half(high))
}

// A register has four words and two longs, so they are put together apart.
fn multiply_words(
    subtract: bool,
    high: bool,
    rs1: Register,
    rs2: Register,
    rs3: Register,
) -> Outcome
    ensures { result ≡ clamped_words (multiply_lane 16 subtract high) rs1 rs2 rs3 }
{
    let lane = |x: u32, y: u32, z: u32| multiply_lane(subtract, high, x, y, z);
    let w0 = lane(rs1.w0, rs2.w0, rs3.w0);
    let w1 = lane(rs1.w1, rs2.w1, rs3.w1);
    let w2 = lane(rs1.w2, rs2.w2, rs3.w2);
    let w3 = lane(rs1.w3, rs2.w3, rs3.w3);
    Outcome {
        value: Register {
            w0: w0.value,
            w1: w1.value,
            w2: w2.value,
            w3: w3.value,
        },
        mark: mark_of_words(w0.marked, w1.marked, w2.marked, w3.marked),
    }
}

fn multiply_longs(
    subtract: bool,
    high: bool,
    rs1: Register,
    rs2: Register,
    rs3: Register,
) -> Outcome
    ensures { result ≡ clamped_longs (multiply_lane 32 subtract high) rs1 rs2 rs3 }
{
    let l1 = multiply_lane(
        subtract,
        high,
        u64::join(rs1.w3, rs1.w2),
        u64::join(rs2.w3, rs2.w2),
        u64::join(rs3.w3, rs3.w2),
    );
    let l0 = multiply_lane(
        subtract,
        high,
        u64::join(rs1.w1, rs1.w0),
        u64::join(rs2.w1, rs2.w0),
        u64::join(rs3.w1, rs3.w0),
    );
    Outcome {
        value: Register {
            w0: l0.value.half(false),
            w1: l0.value.half(true),
            w2: l1.value.half(false),
            w3: l1.value.half(true),
        },
        mark: mark_of_longs(l0.marked, l1.marked),
    }
}

// The eight of the multiply family.
pub fn multiply(
    long: bool,
    subtract: bool,
    high: bool,
    rs1: Register,
    rs2: Register,
    rs3: Register,
) -> Outcome
    ensures { result ≡ multiplied long subtract high rs1 rs2 rs3 }
{
    if long {
        multiply_longs(subtract, high, rs1, rs2, rs3)
    } else {
        multiply_words(subtract, high, rs1, rs2, rs3)
    }
}
