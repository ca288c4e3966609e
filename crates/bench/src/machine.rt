// The plain machine: programs and lone words.

ghost use Rattle.std.specs.Prelude.{◌≤◌};

use crate::case::{MOST, NAMED, Words};
use crate::print;
use console::output::Streams;
use plain::Executed;
use plain::told::{mark_in, marks_in};
use register::Register;
use std::io::Write;
use table::Edition;

// The registers that a case names, from one number on and up to another; the others are zero.
fn file_of(words: &mut Words, from: usize, to: usize) -> Option<[[u32; 4]; 32]>
    requires { to ≤ 32 }
{
    let mut file = [[0; 4]; 32];
    for number in from..to {
        file[number] = words.row()?;
    }
    Some(file)
}

// The first register that a case names.
fn first_named(edition: Edition) -> usize
    ensures { result ≤ 1 }
{
    match edition {
        Edition::One => 1,
        Edition::Two => 0,
    }
}

fn print_file(
    streams: &mut Streams<impl Write, impl Write>,
    edition: Edition,
    file: [[u32; 4]; 32],
) {
    print::register(streams, Register::from_row(file[1]));
    print::register(streams, Register::from_row(file[4]));
    if edition == Edition::Two {
        print::register(streams, Register::from_row(file[0]));
    }
}

fn print_executed<M>(
    streams: &mut Streams<impl Write, impl Write>,
    edition: Edition,
    executed: &Executed<M>,
    marks: &[u8],
) {
    print::refusal_and_place(streams, &executed.answer);
    print_file(streams, edition, executed.file);
    print::marks(streams, marks);
}

pub(crate) fn answer_program(
    streams: &mut Streams<impl Write, impl Write>,
    edition: Edition,
    mut words: Words,
) -> Option<()> {
    let lines = words.size()?;
    let file = file_of(&mut words, first_named(edition), 2)?;
    let named = words.program()?;
    words.end()?;
    let mut program = [0u32; MOST];
    program[..NAMED].copy_from_slice(&named);
    let executed = plain::execute_all(edition, &program[..lines], file);
    let marks = marks_in(&executed);
    print_executed(streams, edition, &executed, &marks);
    Some(())
}

pub(crate) fn answer_word(
    streams: &mut Streams<impl Write, impl Write>,
    edition: Edition,
    mut words: Words,
) -> Option<()> {
    let word = words.code()?.unwrap_or(0);
    let first = first_named(edition);
    let file = file_of(&mut words, first, first + 3)?;
    words.end()?;
    let executed = plain::execute(edition, word, file);
    let mark = mark_in(&executed);
    print_executed(streams, edition, &executed, &[mark]);
    Some(())
}
