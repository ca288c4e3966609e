// What the row of a cycle says, what a cycle with a row answers, and the whole text of a job. `specs/` has the definitions; `proofs/Theorems.antt` says that a row says
// what happened, `proofs/TextTheorems.antt` which text there is and what room it takes. There is no code.

#![tactic(auto)]

// The bytes of the largest text: 67 rows and a line of END.
pub const LARGEST_TEXT: usize = 5233;

// A text by value: its bytes, zeros behind them, and its size. It is an array with a size beside it, since there is no heap.
#[derive(Clone, Copy)]
pub struct WholeText {
    pub bytes: [u8; LARGEST_TEXT],
    pub size: usize,
}
