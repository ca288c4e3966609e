// Reads a job from standard input, and prints its trace or the number that it is refused with.

#![tactic(auto)]

use console::input::read_input;
use console::output::Streams;
use job_reader::BYTES_TO_READ;
use std::io::{Read, Write};
use trace_text::whole_text;

fn print_trace(input: &mut impl Read, streams: &mut Streams<impl Write, impl Write>) {
    let mut room = [0u8; BYTES_TO_READ];
    let Ok(file) = read_input(input, streams, &mut room) else {
        return;
    };
    let text = whole_text(file);
    streams.print_front(&text.bytes, text.size);
}

fn main(rt: HostRuntime) {
    print_trace(&mut rt.stdin(), &mut Streams::standard(&rt));
}
