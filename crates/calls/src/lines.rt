// The lines of standard input. They come in pieces, and a line may begin in one piece and end in another, so what is printed is printed as it comes.

use crate::answers;
use crate::calls::answered;
use crate::kept::{Kept, ROOM};
use console::input::read_open;
use console::output::Streams;
use script::first_line;
use std::io::{Read, Write};
use std::rt::Files;
use unit_rules::Unit;

// The bytes of a piece.
const PIECE: usize = 4096;

// Prints a part of a line, and keeps it.
fn take_part(streams: &mut Streams<impl Write, impl Write>, line: &mut Kept, part: &[u8]) {
    streams.print(part);
    line.keep(part);
}

fn end_line(
    files: &impl Files,
    streams: &mut Streams<impl Write, impl Write>,
    u: Unit,
    line: &[u8],
) -> Unit {
    if line.len() < ROOM {
        return answered(files, streams, u, line);
    }
    answers::unknown(streams);
    u
}

// All lines that end in the piece. What stands behind the last of them is kept.
fn take_piece(
    files: &impl Files,
    streams: &mut Streams<impl Write, impl Write>,
    before: Unit,
    line: &mut Kept,
    piece: &[u8],
) -> Unit {
    let mut u = before;
    let mut rest = piece;
    while let (last, Some(behind)) = first_line(rest) {
        take_part(streams, line, last);
        u = end_line(files, streams, u, line.bytes());
        line.clear();
        rest = behind;
    }
    take_part(streams, line, rest);
    u
}

// A last line without a newline is a line too.
fn end_all(
    files: &impl Files,
    streams: &mut Streams<impl Write, impl Write>,
    u: Unit,
    line: &[u8],
) {
    if !line.is_empty() {
        end_line(files, streams, u, line);
    }
}

// A proved loop has to end, and nothing says that an input does, so it counts its pieces down from a number that no run uses up.
pub(crate) fn answer_all(
    files: &impl Files,
    input: &mut impl Read,
    streams: &mut Streams<impl Write, impl Write>,
) {
    let mut u = unit::fresh();
    let mut line = Kept::new();
    let mut room = [0u8; PIECE];
    for _ in 0..u64::MAX {
        match read_open(input, &mut room) {
            Err(_) => {
                streams.say(b"UNREADABLE\n");
                return;
            }
            Ok([]) => break,
            Ok(piece) => u = take_piece(files, streams, u, &mut line, piece),
        }
    }
    end_all(files, streams, u, line.bytes());
}
