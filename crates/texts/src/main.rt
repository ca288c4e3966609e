// For each text file named as an argument: its name on a line, and then `WORDS` with the number of words and these, a line each; or `REFUSED` with the number and the line.

#![tactic(auto)]

use console::arguments::for_each_file;
use console::output::Streams;
use console::refused::RefusedLine;
use row::values::word_text;
use std::io::Write;
use text_reader::{BYTES_TO_READ, read_text};

fn print_word(streams: &mut Streams<impl Write, impl Write>, word: u32) {
    streams.print(&word_text(word));
    streams.print(b"\n");
}

fn print_words(streams: &mut Streams<impl Write, impl Write>, words: &[u32]) {
    streams.print(b"WORDS");
    streams.print_field(words.len());
    streams.print(b"\n");
    for word in words {
        print_word(streams, *word);
    }
}

fn print_text(streams: &mut Streams<impl Write, impl Write>, text: &[u8]) {
    match read_text(text) {
        Ok(read) => {
            let n = read.n.0 as usize;
            print_words(streams, &read.words[..n]);
        }
        Err(faulty) => {
            streams.print_value(RefusedLine {
                refusal: faulty.refusal,
                line: faulty.line,
            });
        }
    }
}

fn main(rt: HostRuntime) {
    let mut streams = Streams::standard(&rt);
    let mut room = [0u8; BYTES_TO_READ];
    for_each_file(&rt, &mut streams, &mut room, |streams, read| {
        if let Ok(text) = read {
            print_text(streams, text);
        }
    });
}
