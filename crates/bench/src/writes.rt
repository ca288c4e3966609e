// The writer of job files, and the buffer that it is lent.

ghost use Rattle.std.specs.Prelude.{◌≤◌};

use crate::case::{MOST, NAMED, Words};
use crate::print;
use crate::print::FILL;
use console::output::Streams;
use job_writer::told::size_in;
use std::io::Write;
use table::Edition;

// How many of the bytes in front are printed: those of the header.
fn header_size(edition: Edition) -> usize
    ensures { result ≤ 12 }
{
    match edition {
        Edition::One => 8,
        Edition::Two => 12,
    }
}

fn print_written(
    streams: &mut Streams<impl Write, impl Write>,
    edition: Edition,
    room: usize,
    program: &[u32],
    registers: &[u8],
)
    requires { room ≤ 800 }
{
    let mut out = [FILL; MOST];
    let written = job_writer::write_job(edition, program, registers, &mut out[..room]);
    print::refusal_and_place(streams, &written);
    streams.print_field(size_in(&written));
    print::altered(streams, &out);
    print::front(streams, &out[..header_size(edition)]);
}

// The register bytes are zeros but for the first, which a case of the second edition names.
pub(crate) fn answer(
    streams: &mut Streams<impl Write, impl Write>,
    edition: Edition,
    mut words: Words,
) -> Option<()> {
    let lines = words.size()?;
    let bytes = words.size()?;
    let room = words.size()?;
    let first = words.byte_of(edition)?;
    let named = words.program()?;
    words.end()?;
    let mut program = [0u32; MOST];
    program[..NAMED].copy_from_slice(&named);
    let mut registers = [0u8; MOST];
    registers[0] = first;
    print_written(
        streams,
        edition,
        room,
        &program[..lines],
        &registers[..bytes],
    );
    Some(())
}
