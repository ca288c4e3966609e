// Program text: what a text says and what its reader answers, in `specs/`; theorems about it, in `proofs/`. There is no code.

#![tactic(auto)]

use table::Count;
use table::refusal::Refusal;

// The words of a text: n in front of 64, zeros beyond. There is no heap, so n stands beside an array.
#[derive(Clone, Copy)]
pub struct ReadWords {
    pub words: [u32; 64],
    pub n: Count,
}

// Why a text is refused, and its first faulty line, from 1.
#[derive(Clone, Copy)]
pub struct Faulty {
    pub refusal: Refusal,
    pub line: usize,
}
