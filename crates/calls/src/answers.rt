// What is printed behind a line: ` = ` and its answer, whose first number is the refusal where a unit is called.

use console::output::Streams;
use console::refused::number_in;
use register::Register;
use row::values::{register_text, register_word_text};
use std::fmt::Display;
use std::io::Write;
use table::refusal::Refusal;
use unit::told::register_in;

// A line that is no call.
pub(crate) fn unknown(streams: &mut Streams<impl Write, impl Write>) {
    streams.print(b" = UNKNOWN\n");
}

// A call for a file that cannot be read.
pub(crate) fn unreadable(streams: &mut Streams<impl Write, impl Write>) {
    streams.print(b" = UNREADABLE\n");
}

// A line without an answer.
pub(crate) fn nothing(streams: &mut Streams<impl Write, impl Write>) {
    streams.print(b"\n");
}

fn begin<T>(streams: &mut Streams<impl Write, impl Write>, answer: &Result<T, Refusal>) {
    streams.print(b" =");
    streams.print_field(number_in(answer));
}

// An answer that has nothing beside the refusal.
pub(crate) fn done<T>(streams: &mut Streams<impl Write, impl Write>, answer: &Result<T, Refusal>) {
    begin(streams, answer);
    streams.print(b"\n");
}

pub(crate) fn number<T>(
    streams: &mut Streams<impl Write, impl Write>,
    answer: &Result<T, Refusal>,
    number: impl Display + Drop,
) {
    begin(streams, answer);
    streams.print_field(number);
    streams.print(b"\n");
}

// A space, the register and a newline.
fn end_with(streams: &mut Streams<impl Write, impl Write>, value: Register) {
    streams.print(b" ");
    streams.print(&register_text(value));
    streams.print(b"\n");
}

// A register, zero where it is refused.
pub(crate) fn value(
    streams: &mut Streams<impl Write, impl Write>,
    answer: &Result<Register, Refusal>,
) {
    begin(streams, answer);
    end_with(streams, register_in(answer));
}

fn word(streams: &mut Streams<impl Write, impl Write>, value: u32) {
    streams.print(b" ");
    streams.print(&register_word_text(value));
}

// Four words, and no refusal: what answers them refuses nothing.
pub(crate) fn words(streams: &mut Streams<impl Write, impl Write>, values: [u32; 4]) {
    streams.print(b" =");
    for value in values {
        word(streams, value);
    }
    streams.print(b"\n");
}

// The row stands on the next line, and only where there is one.
pub(crate) fn row(
    streams: &mut Streams<impl Write, impl Write>,
    answer: &Result<(), Refusal>,
    row: &[u8],
) {
    done(streams, answer);
    if answer.is_ok() {
        streams.print(row);
    }
}

fn list_register(streams: &mut Streams<impl Write, impl Write>, number: usize, value: Register) {
    streams.print_value(format_args!("{number:02}"));
    end_with(streams, value);
}

// A line each, its number in two digits.
pub(crate) fn list_registers(
    streams: &mut Streams<impl Write, impl Write>,
    registers: [Register; 32],
) {
    for (number, value) in registers.iter().enumerate() {
        list_register(streams, number, *value);
    }
}
