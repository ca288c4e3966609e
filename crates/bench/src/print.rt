// What an answer is made of, each part behind a space: registers, marks, units, and what became of a buffer.

use console::output::Streams;
use console::refused::{number_in, place_in};
use register::Register;
use row::digits::hex;
use row::values::{register_text, word_text};
use std::io::Write;
use table::Edition;
use table::refusal::Refusal;
use unit_record::latches::{in_decoded, in_executed};
use unit_rules::{IfId, Unit};

// What buffers are filled with: a byte that stands in no row and in no file here.
pub(crate) const FILL: u8 = 238;

pub(crate) fn register(streams: &mut Streams<impl Write, impl Write>, value: Register) {
    streams.print(b" ");
    streams.print(&register_text(value));
}

// Marks as a row shows them, one after another. Both digits are printed by one write: a formatted number makes two, of its zero in front and of the rest.
pub(crate) fn marks(streams: &mut Streams<impl Write, impl Write>, given: &[u8]) {
    streams.print(b" ");
    for mark in given {
        let bits = u32::from(*mark);
        streams.print(&[hex(bits / 16), hex(bits)]);
    }
}

// Zeros where nothing is refused.
pub(crate) fn refusal_and_place<T>(
    streams: &mut Streams<impl Write, impl Write>,
    answer: &Result<T, Refusal>,
) {
    streams.print_field(number_in(answer));
    streams.print_field(place_in(answer));
}

fn latch(streams: &mut Streams<impl Write, impl Write>, held: IfId) {
    match held {
        None => {
            streams.print(b" -");
        }
        Some(i) => {
            streams.print(b" ");
            streams.print(&word_text(i.word));
        }
    }
}

// As a record is written, up to its words.
pub(crate) fn unit(streams: &mut Streams<impl Write, impl Write>, u: Unit) {
    streams.print_field(u.program.n.0);
    streams.print_field(u.count.0);
    streams.print_field(u.cycle);
    streams.print_field(u.gone as u8);
    let fetched = u.fetched;
    let decoded = u.decoded;
    let executed = u.executed;
    latch(streams, fetched);
    latch(streams, in_decoded(decoded));
    latch(streams, in_executed(executed));
}

// 1 or 2.
pub(crate) fn edition_number(streams: &mut Streams<impl Write, impl Write>, edition: Edition) {
    let number: u8 = match edition {
        Edition::One => 1,
        Edition::Two => 2,
    };
    streams.print_field(number);
}

// The bytes where a header stands.
pub(crate) fn front(streams: &mut Streams<impl Write, impl Write>, bytes: &[u8]) {
    for byte in bytes {
        streams.print_field(*byte);
    }
}

// How many bytes of a buffer that was filled are another one now, the first of those and the last: as many as lie between the two where all of these are altered.
pub(crate) fn altered(streams: &mut Streams<impl Write, impl Write>, buffer: &[u8]) {
    let count = buffer.iter().filter(|byte| **byte != FILL).count();
    let first = buffer.iter().position(|byte| *byte != FILL);
    let last = buffer.iter().rposition(|byte| *byte != FILL);
    streams.print_field(count);
    streams.print_field(first.unwrap_or(0));
    streams.print_field(last.unwrap_or(0));
}
