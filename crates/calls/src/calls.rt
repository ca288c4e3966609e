// Which call a line is: its name, and the rest behind one space, which is its own to read. A new call is a function in `make` or `ask`, and a case here.

use crate::{answers, ask, make};
use console::output::Streams;
use script::first_word;
use std::io::Write;
use std::rt::Files;
use unit_rules::Unit;

// Prints what a call that only asks answers.
fn ask_by(
    streams: &mut Streams<impl Write, impl Write>,
    u: Unit,
    name: &[u8],
    rest: Option<&[u8]>,
) {
    match (name, rest) {
        (b"registers", None) => ask::registers(streams, u),
        (b"drained", None) => ask::drained(streams, u),
        (b"register", Some(number)) => ask::register(streams, u, number),
        (b"ones", Some(digits)) => ask::ones(streams, digits),
        _ => answers::unknown(streams),
    }
}

// Prints what the call of a line answers, and hands back the unit that it leaves.
pub(crate) fn answered(
    files: &impl Files,
    streams: &mut Streams<impl Write, impl Write>,
    u: Unit,
    line: &[u8],
) -> Unit {
    match first_word(line) {
        (b"unit", None) => make::fresh(streams),
        (b"go", None) => make::go(streams, u),
        (b"cycle", None) => make::cycle(streams, u),
        (b"row", None) => make::row(streams, u),
        (b"run", Some(budget)) => make::run(streams, u, budget),
        (b"load", Some(path)) => make::load(files, streams, u, path),
        (name, rest) => {
            ask_by(streams, u, name, rest);
            u
        }
    }
}
