// What plain execution answers. The plain machine itself is a definition: specs/Machine.antt. There is no code but this struct.

#![tactic(auto)]

use table::refusal::Refusal;

// What plain execution answers: the mark of a lone word or the marks of a program's lines, or why it is refused; and the file, which comes back in both cases.
#[derive(Clone, Copy)]
pub struct Executed<M> {
    pub answer: Result<M, Refusal>,
    pub file: [[u32; 4]; 32],
}
