// Job files: what they say and what reader and writer answer, in `specs/`; that both ways give back what went in, in `proofs/`. There is no code.

#![tactic(auto)]

use register::Register;
use table::{Count, Edition};

// A program: its n lines in front of 64 words, and the edition of the card that it is for. There is no heap, so n stands beside an array.
#[derive(Clone, Copy)]
pub struct Program {
    pub words: [u32; 64],
    pub n: Count,
    pub edition: Edition,
}

// A job: a program and the first r registers, beside an array for the same reason. Zero beyond the n lines and the r registers.
#[derive(Clone, Copy)]
pub struct Job {
    pub program: Program,
    pub registers: [Register; 32],
    pub r: usize,
}

// What an accepted header says: of which edition the file is, and how many words and how many registers follow.
#[derive(Clone, Copy)]
pub struct Counts {
    pub edition: Edition,
    pub n: Count,
    pub r: usize,
}
