// The unit's record and what its calls answer. What a load, a go, a cycle and the other calls make of it is defined in `specs/`; demand 3 is in
// `proofs/Demand3.antt`. There is no code.

#![tactic(auto)]

use alu_rules::Outcome;
use job_rules::Program;
use register::Register;
use table::refusal::Refusal;
use table::{Count, Pointer};

// An instruction as it goes through decode and latches: its word, the registers of its operands and the register that it writes, or none.
#[derive(Clone, Copy, PartialEq, Eq)]
pub struct Instruction {
    pub word: u32,
    pub first: Pointer,
    pub second: Pointer,
    pub third: Pointer,
    pub target: Option<Pointer>,
}

// Something for each operand of an instruction; li's first operand is its rd.
#[derive(Clone, Copy)]
pub struct ForOperands<T> {
    pub first: T,
    pub second: T,
    pub third: T,
}

// The registers that ID reads in a cycle.
pub type Sources = ForOperands<Pointer>;

// The values that ID has read.
pub type Operands = ForOperands<Register>;

// The latch between IF and ID: the instruction that was fetched, if one was.
pub type IfId = Option<Instruction>;

// The latch between ID and EX: an instruction, and what was read for it.
pub type IdEx = Option<(Instruction, Operands)>;

// The latch between EX and WB: an instruction, and what EX has made of it.
pub type ExWb = Option<(Instruction, Outcome)>;

// The unit: its program, with its job's edition, the count of lines fetched, the cycles since the go, the registers, the latches, and whether it has gone since it was loaded.
#[derive(Clone, Copy)]
pub struct Unit {
    pub program: Program,
    pub count: Count,
    pub cycle: u32,
    pub registers: [Register; 32],
    pub fetched: IfId,
    pub decoded: IdEx,
    pub executed: ExWb,
    pub gone: bool,
}

// What is in flight between two cycles: the count and the latches, all of the unit that a cycle changes but its number and the registers.
#[derive(Clone, Copy)]
pub struct InFlight {
    pub count: Count,
    pub fetched: IfId,
    pub decoded: IdEx,
    pub executed: ExWb,
}

// What WB writes in a cycle, if anything: where and what.
pub type Write = Option<(Pointer, Register)>;

// What a call answers, and the unit: refused, it comes back as it was given.
#[derive(Clone, Copy)]
pub struct Answered<T> {
    pub answer: Result<T, Refusal>,
    pub unit: Unit,
}
