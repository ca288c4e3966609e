// The reader of job files: what it answers of a file that is refused, and of one that is not.

use crate::case::{MOST, Words};
use crate::print;
use console::output::Streams;
use job_reader::told::job_in;
use std::io::Write;
use table::Edition;

fn print_read(streams: &mut Streams<impl Write, impl Write>, file: &[u8]) {
    let read = job_reader::read_job(file);
    print::refusal_and_place(streams, &read);
    let job = job_in(&read);
    streams.print_field(job.program.n.0);
    streams.print_field(job.r);
    print::edition_number(streams, job.program.edition);
}

fn half(words: &mut Words) -> Option<u16> {
    let size = words.size()?;
    Some(size as u16)
}

// The numbers in front of a file, two bytes each: the last two are zeros in the first edition.
fn header(edition: Edition, words: &mut Words) -> Option<[u16; 6]> {
    let lines = half(words)?;
    let registers = half(words)?;
    match edition {
        Edition::One => Some([lines, registers, half(words)?, half(words)?, 0, 0]),
        Edition::Two => Some([
            lines,
            registers,
            12,
            half(words)?,
            half(words)?,
            half(words)?,
        ]),
    }
}

// Behind the header stand zeros but for the byte in front of the registers, which a case of the second edition names.
pub(crate) fn answer(
    streams: &mut Streams<impl Write, impl Write>,
    edition: Edition,
    mut words: Words,
) -> Option<()> {
    let header = header(edition, &mut words)?;
    let size = words.size()?;
    let byte = words.byte_of(edition)?;
    words.end()?;
    let mut file = [0u8; MOST];
    for (i, number) in header.iter().enumerate() {
        file[2 * i..2 * i + 2].copy_from_slice(&number.to_le_bytes());
    }
    if let Some(first) = file.get_mut(12 + 4 * header[0] as usize) {
        *first = byte;
    }
    print_read(streams, &file[..size]);
    Some(())
}
