// The words of a line, taken one after another: what each of them says, or nothing where it is not of the form that a case asks for.

ghost use Rattle.std.specs.Prelude.{◌≤◌, IfSome};

use script::{decimal, first_word, hex};
use table::Edition;

// The largest size that a case can name, and so the size of every buffer: more than the largest job takes.
pub(crate) const MOST: usize = 800;

// The words of the longest form, and one more, so that a word too many shows.
const WORDS: usize = 14;

// The words of a program that a case can name.
pub(crate) const NAMED: usize = 4;

// A decimal number of at most so much.
fn number(digits: &[u8], most: u32) -> Option<u32>
    ensures { IfSome result (λ value. value ≤ most) }
{
    let value = decimal(digits)?;
    if value > most {
        return None;
    }
    Some(value)
}

fn size(digits: &[u8]) -> Option<usize>
    ensures { IfSome result (λ size. size ≤ 800) }
{
    let value = number(digits, MOST as u32)?;
    Some(value as usize)
}

// A register in 32 digits as a row: its leftmost word is the last.
fn row(digits: &[u8]) -> Option<[u32; 4]> {
    if digits.len() != 32 {
        return None;
    }
    let w3 = hex(&digits[..8])?;
    let w2 = hex(&digits[8..16])?;
    let w1 = hex(&digits[16..24])?;
    let w0 = hex(&digits[24..])?;
    Some([w0, w1, w2, w3])
}

// What is left of a line, and how many words of that are looked at.
#[derive(Clone, Copy)]
pub(crate) struct Words<'a> {
    rest: &'a [u8],
    left: usize,
}

impl<'a> Words<'a> {
    pub(crate) fn of(line: &'a [u8]) -> Words<'a> {
        Words {
            rest: line,
            left: WORDS,
        }
    }

    // The next word; empty where there is none.
    pub(crate) fn next(&mut self) -> &'a [u8] {
        let (word, rest) = first_word(self.rest);
        self.rest = rest.unwrap_or(&[]);
        self.left = self.left.saturating_sub(1);
        word
    }

    // No word follows.
    pub(crate) fn end(self) -> Option<()> {
        if self.rest.iter().take(self.left).all(|byte| *byte == b' ') {
            return Some(());
        }
        None
    }

    pub(crate) fn size(&mut self) -> Option<usize>
        ensures { IfSome result (λ size. size ≤ 800) }
    {
        size(self.next())
    }

    pub(crate) fn byte(&mut self) -> Option<u8> {
        let value = number(self.next(), 255)?;
        Some(value as u8)
    }

    // A byte that cases of the second edition name; of the first it is zero.
    pub(crate) fn byte_of(&mut self, edition: Edition) -> Option<u8> {
        match edition {
            Edition::One => Some(0),
            Edition::Two => self.byte(),
        }
    }

    // A size, or a start that no buffer has room behind.
    pub(crate) fn start(&mut self) -> Option<usize> {
        match self.next() {
            b"max" => Some(usize::MAX),
            digits => size(digits),
        }
    }

    // A word in hex digits, which may be missing.
    pub(crate) fn code(&mut self) -> Option<Option<u32>> {
        match self.next() {
            b"" | b"-" => Some(None),
            digits => Some(Some(hex(digits)?)),
        }
    }

    // A register, zero where it is missing.
    pub(crate) fn row(&mut self) -> Option<[u32; 4]> {
        match self.next() {
            b"" | b"-" => Some([0; 4]),
            digits => row(digits),
        }
    }

    // The words of a program, zeros where they are missing.
    pub(crate) fn program(&mut self) -> Option<[u32; NAMED]> {
        let mut program = [0; NAMED];
        for word in &mut program {
            *word = self.code()?.unwrap_or(0);
        }
        Some(program)
    }
}
