// Room for a row.

use crate::case::{MOST, Words};
use crate::print;
use crate::print::FILL;
use alu_rules::Outcome;
use console::output::Streams;
use console::refused::number_in;
use register::Register;
use row_rules::{Flags, Row};
use std::io::Write;
use table::Pointer;

fn full_row() -> Row {
    let outcome = Outcome {
        value: Register::ZERO,
        mark: 0xA5,
    };
    Row {
        cycle: 67,
        fetch: Some(0x1FF_FFFF),
        decode: None,
        execute: Some(0xA1),
        write: None,
        flags: Flags {
            rs1: true,
            rs2: false,
            rs3: true,
        },
        change: Some((Pointer(31), outcome)),
    }
}

pub(crate) fn answer(
    streams: &mut Streams<impl Write, impl Write>,
    mut words: Words,
) -> Option<()> {
    let room = words.size()?;
    let start = words.start()?;
    words.end()?;
    let mut buffer = [FILL; MOST];
    let written = row::write_row(&mut buffer[..room], start, full_row());
    streams.print_field(number_in(&written));
    print::altered(streams, &buffer);
    Some(())
}
