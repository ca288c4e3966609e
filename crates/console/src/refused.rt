// What a program prints of a refusal: its number, and 0 where nothing is refused.

ghost use Rattle.std.specs.Prelude.{◌≡◌, Some};
ghost use Rattle.table.specs.Refusal.{number_of};
ghost use Rattle.console.specs.Output.{refused_text, refused_line_text};
ghost use Rattle.table.specs.Refusal.{number_in, place_in};

use std::fmt;
use std::fmt::{Display, Formatter};
use table::refusal::Refusal;

// The number that something is refused with, or 0.
pub fn number_in<T>(answer: &Result<T, Refusal>) -> u32
    ensures { result ≡ number_in answer.now }
{
    match answer {
        Ok(_) => 0,
        Err(why) => why.number(),
    }
}

// The place that is told beside it, or 0.
pub fn place_in<T>(answer: &Result<T, Refusal>) -> usize
    ensures { result ≡ place_in answer.now }
{
    match answer {
        Ok(_) => 0,
        Err(why) => why.place(),
    }
}

// A line that says with which number something is refused.
#[derive(Clone, Copy)]
pub struct Refused(pub Refusal);

impl Display for Refused {
    ghost output = { λ refused. Some (refused_text (number_of refused.0)) };

    fn fmt<W: fmt::Write>(&self, f: &mut Formatter<W>) -> fmt::Result {
        let number = self.0.number();
        write!(f, "REFUSED {number}\n")
    }
}

// The same, with the line that is at fault: what the reader of texts calls faulty, of which the console knows nothing.
#[derive(Clone, Copy)]
pub struct RefusedLine {
    pub refusal: Refusal,
    pub line: usize,
}

impl Display for RefusedLine {
    ghost output = { λ refused. Some (refused_line_text (number_of refused.refusal) refused.line) };

    fn fmt<W: fmt::Write>(&self, f: &mut Formatter<W>) -> fmt::Result {
        let number = self.refusal.number();
        let line = self.line;
        write!(f, "REFUSED {number} {line}\n")
    }
}
