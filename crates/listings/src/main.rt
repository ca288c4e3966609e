// For each job file named as an argument: its name on a line, then the listing of its program, or `REFUSED` with the number, and an empty line.

#![tactic(auto)]

use console::arguments::for_each_file;
use console::output::Streams;
use console::refused::Refused;
use job_reader::BYTES_TO_READ;
use std::io::Write;
use text_writer::{LARGEST, list_job};

fn print_listing(streams: &mut Streams<impl Write, impl Write>, file: &[u8]) {
    let mut text = [0u8; LARGEST];
    match list_job(file, &mut text) {
        Ok(size) => streams.print_front(&text, size),
        Err(why) => streams.print_value(Refused(why)),
    };
}

fn main(rt: HostRuntime) {
    let mut streams = Streams::standard(&rt);
    let mut room = [0u8; BYTES_TO_READ];
    for_each_file(&rt, &mut streams, &mut room, |streams, read| {
        if let Ok(file) = read {
            print_listing(streams, file);
        }
        streams.print(b"\n");
    });
}
