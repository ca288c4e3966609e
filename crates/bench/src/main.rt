// What no script of calls on a unit can say: room for rows, what the reader of job files answers, the writer's buffers, records that no call leaves, plain execution, and lanes that
// are run and not proved.
// Each line of standard input is a case and is repeated with ` = ` and its answer; a line that is no case has UNKNOWN for an answer. Numbers are decimal, words and
// registers in hex digits; where a word or a register is missing or `-`, it is zero, or the latch empty. The cases, and what they answer:
//
//     row ROOM START                   refusal; how many bytes of the buffer were altered, the first of them and the last
//     cycle-row ROOM START             the same of a cycle with its row, of a unit that has one line and has gone; then the unit
//     read LINES REGISTERS FIRST SECOND SIZE
//                                      of a file of that size with such a header and zeros behind it: refusal, place, lines, registers, edition
//     write LINES BYTES ROOM WORD ..   refusal, place, size; the bytes altered, as above; the first eight bytes
//     plain LINES R1 WORD ..           refusal, place, registers 1 and 4, the 64 marks
//     lone WORD R1 R2 R3               the same with one mark
//     record LINES COUNT CYCLE GONE IF/ID ID/EX EX/WB WORD ..
//                                      whether it is well made; then a line for each call on it, with the answer and the unit
//
// and of the second edition
//
//     read-2 LINES REGISTERS SECOND EDITION REST SIZE BYTE
//                                      of a file with the first offset 12, those numbers in bytes 8-9 and 10-11, and that byte in front of its registers: as above
//     write-2 LINES BYTES ROOM BYTE WORD ..
//                                      with that byte in front of the register bytes: as above, but the first twelve bytes
//     plain-2 LINES R0 R1 WORD ..      refusal, place, registers 1, 4 and 0, the 64 marks
//     lone-2 WORD R0 R1 R2             the same with one mark
//     record-2 R0 LINES COUNT CYCLE GONE IF/ID ID/EX EX/WB WORD ..
//                                      with that in register 0: as above
//
// A program's lines are the words that are named, and zeros behind them. A unit is printed as a record is written, up to its words.

#![tactic(auto)]

mod case;
mod machine;
mod print;
mod reads;
mod rows;
mod units;
mod writes;

use crate::case::Words;
use console::input::read_open;
use console::output::Streams;
use script::first_line;
use std::io::{Read, Write};
use table::Edition;

// The longest script, and one byte more.
const SCRIPT_BYTES: usize = 65536;

// Prints the answer of a case; nothing where a line is no case.
fn answer(streams: &mut Streams<impl Write, impl Write>, line: &[u8]) -> Option<()> {
    let mut words = Words::of(line);
    match words.next() {
        b"row" => rows::answer(streams, words),
        b"cycle-row" => units::answer_cycle(streams, words),
        b"read" => reads::answer(streams, Edition::One, words),
        b"read-2" => reads::answer(streams, Edition::Two, words),
        b"write" => writes::answer(streams, Edition::One, words),
        b"write-2" => writes::answer(streams, Edition::Two, words),
        b"plain" => machine::answer_program(streams, Edition::One, words),
        b"plain-2" => machine::answer_program(streams, Edition::Two, words),
        b"lone" => machine::answer_word(streams, Edition::One, words),
        b"lone-2" => machine::answer_word(streams, Edition::Two, words),
        b"record" => units::answer_record(streams, Edition::One, words),
        b"record-2" => units::answer_record(streams, Edition::Two, words),
        _ => None,
    }
}

fn print_answer(streams: &mut Streams<impl Write, impl Write>, line: &[u8]) {
    streams.print(line);
    streams.print(b" =");
    if answer(streams, line).is_none() {
        streams.print(b" UNKNOWN");
    }
    streams.print(b"\n");
}

// A last line without a newline is a line too.
fn print_answers(streams: &mut Streams<impl Write, impl Write>, script: &[u8]) {
    let mut rest = script;
    while let (line, Some(behind)) = first_line(rest) {
        print_answer(streams, line);
        rest = behind;
    }
    if !rest.is_empty() {
        print_answer(streams, rest);
    }
}

// A script that fills the buffer may go on behind it: none of it is answered then.
fn answer_all(input: &mut impl Read, streams: &mut Streams<impl Write, impl Write>) {
    let mut room = [0u8; SCRIPT_BYTES];
    match read_open(input, &mut room) {
        Ok(script) if script.len() < SCRIPT_BYTES => print_answers(streams, script),
        _ => streams.say(b"UNREADABLE\n"),
    }
}

fn main(rt: HostRuntime) {
    answer_all(&mut rt.stdin(), &mut Streams::standard(&rt));
}
