// A unit's record, well made or not, through every call.

ghost use Rattle.std.specs.Prelude.{◌≤◌};

use crate::case::{MOST, NAMED, Words};
use crate::print;
use crate::print::FILL;
use alu_rules::Outcome;
use console::output::Streams;
use console::refused::number_in;
use job_rules::Program;
use register::Register;
use std::io::Write;
use table::{Count, Edition};
use unit::told::{drained_in, made_in, register_in};
use unit_record::latches::instruction;
use unit_record::well_made;
use unit_rules::{ExWb, IdEx, IfId, Operands, Unit};

// A job without lines and registers, which a load of a drained unit accepts.
const NO_LINES: [u8; 8] = [0, 0, 0, 0, 8, 0, 8, 0];

fn fetched(edition: Edition, word: Option<u32>) -> IfId {
    word.map(|word| instruction(edition, word))
}

fn decoded(edition: Edition, word: Option<u32>) -> IdEx {
    let operands = Operands {
        first: Register::ZERO,
        second: Register::ZERO,
        third: Register::ZERO,
    };
    word.map(|word| (instruction(edition, word), operands))
}

fn executed(edition: Edition, word: Option<u32>) -> ExWb {
    let outcome = Outcome {
        value: Register::ZERO,
        mark: 0xFF,
    };
    word.map(|word| (instruction(edition, word), outcome))
}

fn ones() -> Register {
    Register {
        w0: 0xFFFF_FFFF,
        w1: 0xFFFF_FFFF,
        w2: 0xFFFF_FFFF,
        w3: 0xFFFF_FFFF,
    }
}

// Register 0, which a case of the second edition names.
fn register_0(edition: Edition, words: &mut Words) -> Option<Register> {
    match edition {
        Edition::One => Some(ones()),
        Edition::Two => Some(Register::from_row(words.row()?)),
    }
}

// Its registers are all ones but for register 0, so that the zeros of a refusal show; the values in its latches are zeros, and the mark is FF, which zeros never have: a
// latched mark is free.
fn record_of(edition: Edition, words: &mut Words) -> Option<Unit> {
    let mut registers = [ones(); 32];
    registers[0] = register_0(edition, words)?;
    let lines = words.byte()?;
    let count = words.byte()?;
    let cycle = words.size()?;
    let gone = words.byte()?;
    let in_fetched = words.code()?;
    let in_decoded = words.code()?;
    let in_executed = words.code()?;
    let named = words.program()?;
    words.end()?;
    let mut program = [0u32; 64];
    program[..NAMED].copy_from_slice(&named);
    Some(Unit {
        program: Program {
            words: program,
            n: Count(lines),
            edition,
        },
        count: Count(count),
        cycle: cycle as u32,
        registers,
        fetched: fetched(edition, in_fetched),
        decoded: decoded(edition, in_decoded),
        executed: executed(edition, in_executed),
        gone: gone != 0,
    })
}

fn print_load(streams: &mut Streams<impl Write, impl Write>, u: Unit) {
    let loaded = unit::load(u, &NO_LINES);
    streams.print(b"\nload =");
    print::refusal_and_place(streams, &loaded.answer);
    print::unit(streams, loaded.unit);
}

fn print_go(streams: &mut Streams<impl Write, impl Write>, u: Unit) {
    let gone = unit::go(u);
    streams.print(b"\ngo =");
    streams.print_field(number_in(&gone.answer));
    print::unit(streams, gone.unit);
}

fn print_cycle(streams: &mut Streams<impl Write, impl Write>, u: Unit) {
    let cycled = unit::cycle(u);
    streams.print(b"\ncycle =");
    streams.print_field(number_in(&cycled.answer));
    print::unit(streams, cycled.unit);
}

fn print_run(streams: &mut Streams<impl Write, impl Write>, u: Unit) {
    let ran = unit::run(u, 1000);
    streams.print(b"\nrun 1000 =");
    streams.print_field(number_in(&ran.answer));
    streams.print_field(made_in(&ran));
    print::unit(streams, ran.unit);
}

fn print_register(streams: &mut Streams<impl Write, impl Write>, u: Unit, number: usize) {
    let held = unit::register_of(u, number);
    streams.print(b"\nregister");
    streams.print_field(number);
    streams.print(b" =");
    streams.print_field(number_in(&held));
    print::register(streams, register_in(&held));
}

fn print_drained(streams: &mut Streams<impl Write, impl Write>, u: Unit) {
    let answer = unit::drained(u);
    streams.print(b"\ndrained =");
    streams.print_field(number_in(&answer));
    streams.print_field(drained_in(&answer) as u8);
}

fn print_cycle_row(
    streams: &mut Streams<impl Write, impl Write>,
    u: Unit,
    room: usize,
    start: usize,
)
    requires { room ≤ 800 }
{
    let mut buffer = [FILL; MOST];
    let cycled = trace_row::cycle_with_row(u, &mut buffer[..room], start);
    streams.print_field(number_in(&cycled.answer));
    print::altered(streams, &buffer);
    print::unit(streams, cycled.unit);
}

pub(crate) fn answer_cycle(
    streams: &mut Streams<impl Write, impl Write>,
    mut words: Words,
) -> Option<()> {
    let room = words.size()?;
    let start = words.start()?;
    words.end()?;
    let u = record_of(Edition::One, &mut Words::of(b"1 0 0 1"))?;
    print_cycle_row(streams, u, room, start);
    Some(())
}

// Every call, each on the record as it is given.
fn print_calls(streams: &mut Streams<impl Write, impl Write>, u: Unit) {
    streams.print_field(well_made(u) as u8);
    print_load(streams, u);
    print_go(streams, u);
    print_cycle(streams, u);
    streams.print(b"\ncycle-row 80 max =");
    print_cycle_row(streams, u, 80, usize::MAX);
    print_run(streams, u);
    for number in [31, 32, usize::MAX] {
        print_register(streams, u, number);
    }
    print_drained(streams, u);
}

pub(crate) fn answer_record(
    streams: &mut Streams<impl Write, impl Write>,
    edition: Edition,
    mut words: Words,
) -> Option<()> {
    print_calls(streams, record_of(edition, &mut words)?);
    Some(())
}
