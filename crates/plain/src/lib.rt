// The plain machine: one instruction after another on a file of 32 rows of four words, by value.

#![tactic(auto)]

ghost use Rattle.std.specs.Prelude.{◌≡◌, get_or};
ghost use Rattle.plain_rules.specs.Machine.{executed_rows};
ghost use Rattle.plain_rules.specs.Answer.{said_word, said_program, execute_of, execute_all_of};

pub mod lines;
mod rows;
pub mod told;

use crate::lines::{cleared, execute_marked};
use crate::rows::{registers_of, rows_of};
pub use plain_rules::Executed;
use table::Edition;
use table::refusal::{Refusal, first_bad};

// The words are executed on registers: a row is read and written once a program, and not once a word. Before the first, a register that the edition wires to zero is
// cleared.
fn run(edition: Edition, program: &[u32], file: [[u32; 4]; 32], marks: &mut [u8]) -> [[u32; 4]; 32]
    ensures { (result, marks.new) ≡ executed_rows edition program.now file marks.old }
{
    let registers = cleared(edition, registers_of(file));
    let after = execute_marked(edition, program, registers, marks);
    rows_of(after)
}

// Executes a program on a file, one word after another, on a card of this edition, and answers the marks of its lines, zero beyond them. Refused with 2 over 64 words,
// then with 6 at the first bad word, and then the file is as it was given.
pub fn execute_all(edition: Edition, program: &[u32], file: [[u32; 4]; 32]) -> Executed<[u8; 64]>
    ensures { said_program result ≡ execute_all_of edition program.now file }
{
    if program.len() > 64 {
        return Executed {
            answer: Err(Refusal::Count),
            file,
        };
    }
    let bad = first_bad(program);
    if bad < program.len() {
        return Executed {
            answer: Err(Refusal::Word(bad)),
            file,
        };
    }
    let mut marks = [0u8; 64];
    let after = run(edition, program, file, &mut marks);
    Executed {
        answer: Ok(marks),
        file: after,
    }
}

// Executes a lone word, as a program of one line, and answers its mark. Refused with 6.
pub fn execute(edition: Edition, word: u32, file: [[u32; 4]; 32]) -> Executed<u8>
    ensures { said_word result ≡ execute_of edition word file }
{
    let all = execute_all(edition, &[word], file);
    let answer = all.answer.map(
        |marks: [u8; 64]| -> u8
            ensures { result ≡ get_or marks 0 0 }
        { marks[0] },
    );
    let file = all.file;
    Executed { answer, file }
}
