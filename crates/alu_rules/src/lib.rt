// What each instruction gives, lane by lane and across registers: `specs/`. There is no code.

#![tactic(auto)]

use register::Register;

// What EX makes of an instruction's operands: the value for the register that it writes, and which of its lanes were clamped, a bit for each halfword.
#[derive(Clone, Copy, PartialEq, Eq)]
pub struct Outcome {
    pub value: Register,
    pub mark: u8,
}
