// The calls that ask, and leave the unit as it is: each prints its answer.

use crate::answers;
use console::output::Streams;
use script::{decimal, hex};
use std::io::Write;
use unit::told::drained_in;
use unit_rules::Unit;

pub(crate) fn register(streams: &mut Streams<impl Write, impl Write>, u: Unit, words: &[u8]) {
    let Some(number) = decimal(words) else {
        answers::unknown(streams);
        return;
    };
    let held = unit::register_of(u, number as usize);
    answers::value(streams, &held);
}

pub(crate) fn registers(streams: &mut Streams<impl Write, impl Write>, u: Unit) {
    let registers = u.registers;
    answers::done(streams, &Ok(()));
    answers::list_registers(streams, registers);
}

pub(crate) fn drained(streams: &mut Streams<impl Write, impl Write>, u: Unit) {
    let drained = unit::drained(u);
    answers::number(streams, &drained, drained_in(&drained) as u8);
}

// The ones of a word, step by step; a word has eight digits, zeros in front too. The unit has no part in it.
pub(crate) fn ones(streams: &mut Streams<impl Write, impl Write>, digits: &[u8]) {
    match hex(digits) {
        Some(word) if digits.len() == 8 => {
            answers::words(streams, alu_lanes::ones::by_step(word));
        }
        _ => answers::unknown(streams),
    }
}
