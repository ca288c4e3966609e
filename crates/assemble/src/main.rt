// Reads a program text from standard input and writes its job file to standard output, for the first edition of the card, or for the one that is named behind `--edition`.
// Where a file is named as an argument, its bytes are the job's registers, 16 each. A text or a job that is refused writes nothing there, and standard error says with
// which number, and of a text also in which line.

#![tactic(auto)]

ghost use Rattle.std.specs.Prelude.{◌≡◌, ◌≤◌, IfOk, length};

use console::arguments::{PATH_MAX, is_argument, name_of, read_argument};
use console::input::{Unreadable, read_input};
use console::output::Streams;
use console::refused::{Refused, RefusedLine};
use job_writer::{LARGEST, write_job};
use std::io::{Read, Write};
use std::rt::{Env, Files};
use table::Edition;
use text_reader::{BYTES_TO_READ, read_text};

// One byte more than 32 registers have: the writer refuses so many, and more could not be worse.
const REGISTER_BYTES: usize = 513;

// The edition that is asked for, and the number of the argument behind it; or nothing, where something else stands behind `--edition`.
fn asked_edition(rt: &impl Env) -> Option<(Edition, usize)> {
    match name_of(rt, 1, &mut [0u8; PATH_MAX]) {
        b"--edition" => match name_of(rt, 2, &mut [0u8; PATH_MAX]) {
            b"1" => Some((Edition::One, 3)),
            b"2" => Some((Edition::Two, 3)),
            _ => None,
        },
        _ => Some((Edition::One, 1)),
    }
}

// The bytes of the registers, from the file that this argument names, if there is one.
fn read_registers<'a, R: Env + Files, O: Write, E: Write>(
    rt: &R,
    streams: &mut Streams<O, E>,
    number: usize,
    room: &'a mut [u8],
) -> Result<&'a [u8], Unreadable>
    ensures into { IfOk result (λ part. length part.now ≤ length room.old) }
    ensures output { streams.new.output ≡ streams.old.output }
{
    if !is_argument(rt, number) {
        return Ok(&[]);
    }
    read_argument(rt, streams, number, room)
}

fn write_program(
    streams: &mut Streams<impl Write, impl Write>,
    edition: Edition,
    words: &[u32],
    registers: &[u8],
) {
    let mut job = [0u8; LARGEST];
    match write_job(edition, words, registers, &mut job) {
        Ok(size) => streams.print_front(&job, size),
        Err(why) => streams.tell_value(Refused(why)),
    };
}

fn assemble(
    streams: &mut Streams<impl Write, impl Write>,
    edition: Edition,
    text: &[u8],
    registers: &[u8],
) {
    match read_text(text) {
        Ok(read) => {
            let n = read.n.0 as usize;
            write_program(streams, edition, &read.words[..n], registers);
        }
        Err(faulty) => {
            streams.tell_value(RefusedLine {
                refusal: faulty.refusal,
                line: faulty.line,
            });
        }
    }
}

fn run(
    rt: &(impl Env + Files),
    input: &mut impl Read,
    streams: &mut Streams<impl Write, impl Write>,
) {
    let Some((edition, next)) = asked_edition(rt) else {
        streams.say_unreadable(b"--edition");
        return;
    };
    let mut room = [0u8; BYTES_TO_READ];
    let Ok(text) = read_input(input, streams, &mut room) else {
        return;
    };
    let mut register_room = [0u8; REGISTER_BYTES];
    let Ok(registers) = read_registers(rt, streams, next, &mut register_room) else {
        return;
    };
    assemble(streams, edition, text, registers);
}

fn main(rt: HostRuntime) {
    run(&rt, &mut rt.stdin(), &mut Streams::standard(&rt));
}
