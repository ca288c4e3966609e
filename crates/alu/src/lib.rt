// What each instruction of the table gives from its operands: the lane operations across whole registers, and the result of a word.

#![tactic(auto)]

ghost use Rattle.std.specs.Prelude.{◌≡◌, get_or};
ghost use Rattle.register.specs.Layout.{zero_register, with_halfword};
ghost use Rattle.table.specs.Fields.{is_long, is_subtract, is_high, index_of, immediate_of, code_of};
ghost use Rattle.table.specs.Operation.{short_rows};
ghost use Rattle.table.specs.Operation.Operation.{nop};
ghost use Rattle.alu_rules.specs.Across.{unmarked, multiplied};
ghost use Rattle.alu_rules.specs.Result.{result_of, outcome_of};

mod across;
pub mod halfwords;
mod marks;
pub mod multiply;
pub mod words;

use crate::multiply::multiply;
use alu_rules::Outcome;
use register::Register;
use table::fields::{
    code, constant, immediate, index, is_high, is_li, is_long, is_multiply, is_subtract,
};

fn without_mark(value: Register) -> Outcome
    ensures { result ≡ unmarked value }
{
    Outcome { value, mark: 0 }
}

// li: its one operand is its old rd.
pub fn li_outcome(w: u32, rd: Register) -> Outcome
    ensures { result ≡ unmarked (with_halfword (index_of w) (immediate_of w) rd) }
{
    without_mark(rd.with_halfword(index(w), immediate(w)))
}

// A word of the multiply family.
pub fn multiply_outcome(w: u32, rs1: Register, rs2: Register, rs3: Register) -> Outcome
    ensures { result ≡ multiplied (is_long w) (is_subtract w) (is_high w) rs1 rs2 rs3 }
{
    multiply(is_long(w), is_subtract(w), is_high(w), rs1, rs2, rs3)
}

// A word of a short code, its value alone: to gather eight marks costs two thirds of their sums, and a run needs none. None of the sixteen has a third operand.
#[tactic(auto, unfolding(alu_rules::specs::Result::result_of))]
pub fn short_value(w: u32, rs1: Register, rs2: Register) -> Register
    ensures { result ≡ (result_of (get_or short_rows (code_of w) nop) w rs1 rs2 zero_register).value }
{
    let code = code(w);
    match code {
        0 => Register::ZERO,
        1 => halfwords::shift_right(rs1, constant(w)),
        2 => words::add(rs1, rs2),
        3 => halfwords::ones(rs1),
        4 => halfwords::add_clamped(rs1, rs2),
        5 => words::or(rs1, rs2),
        6 => words::broadcast(rs1),
        7 => words::larger(rs1, rs2),
        8 => words::smaller(rs1, rs2),
        9 => words::multiply_low_halves(rs1, rs2),
        10 => words::multiply_low_halves_by(rs1, constant(w)),
        11 => words::and(rs1, rs2),
        12 => words::leading_zeros(rs1),
        13 => words::rotate_right(rs1, rs2),
        14 => words::subtract_from(rs1, rs2),
        _ => halfwords::subtract_from_clamped(rs1, rs2),
    }
}

// A word of a short code. AHS and SFHS alone mark.
#[tactic(auto, using(alu_rules::proofs::Rows::unmarked_row), unfolding(alu_rules::specs::Result::result_of))]
pub fn short_outcome(w: u32, rs1: Register, rs2: Register) -> Outcome
    ensures { result ≡ result_of (get_or short_rows (code_of w) nop) w rs1 rs2 zero_register }
{
    let code = code(w);
    match code {
        4 => halfwords::add_marked(rs1, rs2),
        15 => halfwords::subtract_from_marked(rs1, rs2),
        _ => without_mark(short_value(w, rs1, rs2)),
    }
}

// What a word gives. An operand that the table says is not read has no effect.
#[tactic(auto, using(alu_rules::proofs::Rows::li_result, alu_rules::proofs::Rows::multiply_result, alu_rules::proofs::Rows::short_result))]
pub fn result(w: u32, rs1: Register, rs2: Register, rs3: Register) -> Outcome
    ensures { result ≡ outcome_of w rs1 rs2 rs3 }
{
    if is_li(w) {
        return li_outcome(w, rs1);
    }
    if is_multiply(w) {
        return multiply_outcome(w, rs1, rs2, rs3);
    }
    short_outcome(w, rs1, rs2)
}
