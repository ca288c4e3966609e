// Reads a job from standard input, and prints the listing of its program. A job that is refused prints nothing there, and standard error says with which number.

#![tactic(auto)]

use console::input::read_input;
use console::output::Streams;
use console::refused::Refused;
use job_reader::BYTES_TO_READ;
use std::io::{Read, Write};
use text_writer::{LARGEST, list_job};

fn print_listing(input: &mut impl Read, streams: &mut Streams<impl Write, impl Write>) {
    let mut room = [0u8; BYTES_TO_READ];
    let Ok(file) = read_input(input, streams, &mut room) else {
        return;
    };
    let mut text = [0u8; LARGEST];
    match list_job(file, &mut text) {
        Ok(size) => streams.print_front(&text, size),
        Err(why) => streams.tell_value(Refused(why)),
    };
}

fn main(rt: HostRuntime) {
    print_listing(&mut rt.stdin(), &mut Streams::standard(&rt));
}
