// What stands behind a name: the operands, one space and a number each, and the newline.

ghost use Rattle.std.specs.Prelude.{◌≡◌, ◌≤◌, ◌<◌, length, drop, []};
ghost use Rattle.text_rules.specs.Forms.{form_at};
ghost use Rattle.text_rules.specs.Number.{Notation, base_of};
ghost use Rattle.text_rules.specs.Line.{begins_with, operands_in};
ghost use Rattle.text_reader.specs.Said.{said_operands};

use crate::number::number_in;
use text_table::Forms;

// What a line says: its word, and how many bytes it has with its newline.
#[derive(Clone, Copy)]
pub(crate) struct Line {
    pub(crate) word: u32,
    pub(crate) size: usize,
}

fn begins_with(text: &[u8], at: usize, b: u8) -> bool
    ensures { result ≡ begins_with b (drop at text.now) }
{
    text.get(at) == Some(&b)
}

// Behind the last operand, whatever the notation.
fn ended(text: &[u8], at: usize, word: u32) -> Option<Line>
    ensures { (notation : Notation) → said_operands result ≡ operands_in notation [] word at (drop at text.now) }
{
    if !begins_with(text, at, b'\n') {
        return None;
    }
    Some(Line { word, size: at + 1 })
}

// The operands of the form in that row, whose digits have this base, behind a name of so many bytes: none where anything is not as stated. A row is a place in an
// array, and its bound is asked for where it is read: a type for it would be taken apart there at once.
fn operands_by<const BASE: u32>(
    text: &[u8],
    start: usize,
    forms: &Forms,
    row: usize,
) -> Option<Line>
    requires { (row < 26) × (start ≤ length text.now) × (BASE ≡ base_of (form_at row).notation) }
    ensures { said_operands result ≡ operands_in (form_at row).notation (form_at row).operands (form_at row).word start (drop start text.now) }
{
    let form = &forms.rows[row];
    let mut at = start;
    let mut word = form.word;
    for slot in &form.operands {
        let Some(operand) = slot else {
            break;
        };
        if !begins_with(text, at, b' ') {
            return None;
        }
        let number = number_in::<BASE>(text, at + 1, operand.limit)?;
        word += number.value * operand.weight;
        at = number.end;
    }
    ended(text, at, word)
}

// The same, by a function for each base, so that decimal digits are as quick to read as if there were no others.
pub(crate) fn operands_in(text: &[u8], start: usize, forms: &Forms, row: usize) -> Option<Line>
    requires { (row < 26) × (start ≤ length text.now) }
    ensures { said_operands result ≡ operands_in (form_at row).notation (form_at row).operands (form_at row).word start (drop start text.now) }
{
    if forms.rows[row].base == 16 {
        return operands_by::<16>(text, start, forms, row);
    }
    operands_by::<10>(text, start, forms, row)
}
