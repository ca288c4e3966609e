// What a row of the trace says of one cycle. Its text is defined in `specs/`. There is no code.

#![tactic(auto)]

use alu_rules::Outcome;
use table::Pointer;

// The word of the instruction in a stage; where nothing is there, a row has seven hyphens.
pub type Stage = Option<u32>;

// For each operand of EX's instruction, whether it is WB's value; li's first operand is its rd.
#[derive(Clone, Copy)]
pub struct Flags {
    pub rs1: bool,
    pub rs2: bool,
    pub rs3: bool,
}

// The register that WB writes, and the outcome with its new value and its mark; where it writes nothing, a row has hyphens.
pub type Change = Option<(Pointer, Outcome)>;

// All that a row says: the cycle's number, the words in IF, ID, EX and WB, the flags, and what WB writes.
#[derive(Clone, Copy)]
pub struct Row {
    pub cycle: u32,
    pub fetch: Stage,
    pub decode: Stage,
    pub execute: Stage,
    pub write: Stage,
    pub flags: Flags,
    pub change: Change,
}
