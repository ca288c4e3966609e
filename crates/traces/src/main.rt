// For each job file named as an argument: its name on a line, and then what `trace` prints for it.

#![tactic(auto)]

use console::arguments::for_each_file;
use console::output::Streams;
use job_reader::BYTES_TO_READ;
use std::io::Write;
use trace_text::whole_text;

fn print_trace(streams: &mut Streams<impl Write, impl Write>, file: &[u8]) {
    let text = whole_text(file);
    streams.print_front(&text.bytes, text.size);
}

fn main(rt: HostRuntime) {
    let mut streams = Streams::standard(&rt);
    let mut room = [0u8; BYTES_TO_READ];
    for_each_file(&rt, &mut streams, &mut room, |streams, read| {
        if let Ok(file) = read {
            print_trace(streams, file);
        }
    });
}
