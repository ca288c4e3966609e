// The calls that make something of the unit: each prints its answer and hands the unit back.

use crate::answers;
use console::input::read_named;
use console::output::Streams;
use console::refused::place_in;
use job_reader::BYTES_TO_READ;
use row::ROW_SIZE;
use script::decimal;
use std::io::Write;
use std::rt::Files;
use unit::told::made_in;
use unit_rules::Unit;

// A fresh unit in place of the one there was, which is no call and has no answer.
pub(crate) fn fresh(streams: &mut Streams<impl Write, impl Write>) -> Unit {
    answers::nothing(streams);
    unit::fresh()
}

pub(crate) fn go(streams: &mut Streams<impl Write, impl Write>, u: Unit) -> Unit {
    let gone = unit::go(u);
    answers::done(streams, &gone.answer);
    gone.unit
}

pub(crate) fn cycle(streams: &mut Streams<impl Write, impl Write>, u: Unit) -> Unit {
    let cycled = unit::cycle(u);
    answers::done(streams, &cycled.answer);
    cycled.unit
}

// A cycle with its row.
pub(crate) fn row(streams: &mut Streams<impl Write, impl Write>, u: Unit) -> Unit {
    let mut text = [0u8; ROW_SIZE];
    let cycled = trace_row::cycle_with_row(u, &mut text, 0);
    answers::row(streams, &cycled.answer, &text);
    cycled.unit
}

pub(crate) fn run(streams: &mut Streams<impl Write, impl Write>, u: Unit, words: &[u8]) -> Unit {
    let Some(budget) = decimal(words) else {
        answers::unknown(streams);
        return u;
    };
    let ran = unit::run(u, budget);
    answers::number(streams, &ran.answer, made_in(&ran));
    ran.unit
}

fn load_file(streams: &mut Streams<impl Write, impl Write>, u: Unit, file: &[u8]) -> Unit {
    let loaded = unit::load(u, file);
    answers::number(streams, &loaded.answer, place_in(&loaded.answer));
    loaded.unit
}

// The name is all that stands behind `load `, spaces too.
pub(crate) fn load(
    files: &impl Files,
    streams: &mut Streams<impl Write, impl Write>,
    u: Unit,
    name: &[u8],
) -> Unit {
    if name.is_empty() {
        answers::unknown(streams);
        return u;
    }
    let mut room = [0u8; BYTES_TO_READ];
    let Ok(file) = read_named(files, name, &mut room) else {
        answers::unreadable(streams);
        streams.say_unreadable(name);
        return u;
    };
    load_file(streams, u, file)
}
