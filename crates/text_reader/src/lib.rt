// The reader of program text: line by line, each by the table of forms.

#![tactic(auto)]

ghost use Rattle.std.specs.Prelude.{◌≡◌};
ghost use Rattle.text_rules.specs.Line.{line_of};
ghost use Rattle.text_rules.specs.Text.{said_text, read_text_of, bytes_to_read};
ghost use Rattle.text_reader.specs.Said.{said_line};

mod forms;
mod name;
mod number;
mod operands;

use crate::forms::row_of;
use crate::name::name_in;
use crate::operands::{Line, operands_in};
use table::Count;
use table::refusal::Refusal;
use text_rules::{Faulty, ReadWords};
use text_table::Forms;

// So many bytes of a text decide its answer: a program need not read more of any input.
pub const BYTES_TO_READ: usize = 1217;

// The constant, by a contract.
pub fn bytes_to_read() -> usize
    ensures { result ≡ bytes_to_read }
{
    BYTES_TO_READ
}

// The line in front of a text.
fn line_in(text: &[u8], forms: &Forms) -> Result<Line, Refusal>
    ensures { said_line result ≡ line_of text.now }
{
    let name = name_in(text);
    let row = row_of(forms, name.key).ok_or(Refusal::Name)?;
    operands_in(text, name.size, forms, row).ok_or(Refusal::Operands)
}

// Reads a program text: its words, or why it is refused and its first faulty line. A refusal is taken out by `match`, not by `map_err` and `?`: the proof of the
// latter did not close. The loop goes from line to line and counts no index.
pub fn read_text(text: &[u8]) -> Result<ReadWords, Faulty>
    ensures { said_text result ≡ read_text_of text.now }
{
    let forms = Forms::table();
    let mut words = [0u32; 64];
    let mut n = 0;
    let mut at = 0;
    while at < text.len() {
        let here = n + 1;
        if n == 64 {
            return Err(Faulty {
                refusal: Refusal::Lines,
                line: here,
            });
        }
        let line = match line_in(&text[at..], &forms) {
            Ok(line) => line,
            Err(refusal) => {
                return Err(Faulty {
                    refusal,
                    line: here,
                });
            }
        };
        words[n] = line.word;
        n = here;
        at += line.size;
    }
    Ok(ReadWords {
        words,
        n: Count(n as u8),
    })
}
