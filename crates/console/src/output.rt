// Writing all of some bytes. What writes answers whether all could be written.

ghost use Rattle.std.specs.Prelude.{◌≡◌, IsOk, IfSome, take};
ghost use Rattle.std.specs.Bool.{OnTrue};
ghost use Rattle.console.specs.Output.{Printed, Told, field};

use std::fmt::Display;
use std::io;
use std::io::{Stderr, Stdout, Write};

// Where a program writes: its standard output and its standard error, or what stands for them.
#[derive(Drop)]
pub struct Streams<O: Write, E: Write> {
    pub output: O,
    pub error: E,
}

impl Streams<Stdout, Stderr> {
    // The program's own.
    pub fn standard(rt: &HostRuntime) -> Streams<Stdout, Stderr> {
        Streams {
            output: rt.stdout(),
            error: rt.stderr(),
        }
    }
}

// Each of these is a write of its own: where one fails, standard error says so, and the next is tried.
impl<O: Write, E: Write> Streams<O, E> {
    // To standard error. Where that fails there is nobody left to tell.
    pub fn say(&mut self, text: &[u8])
        ensures { self.new.output ≡ self.old.output }
    {
        let _ = self.error.write_all(text);
    }

    // Where not all could be written, standard error says so.
    fn is_written(&mut self, written: io::Result<()>) -> bool
        ensures { OnTrue result (IsOk written × (self.new ≡ self.old)) }
    {
        if written.is_err() {
            self.say(b"UNWRITTEN\n");
            return false;
        }
        true
    }

    // To standard output.
    pub fn print(&mut self, text: &[u8]) -> bool
        ensures { OnTrue result (Printed O.contents self.old self.new text.now) }
    {
        let written = self.output.write_all(text);
        self.is_written(written)
    }

    // The same to standard error.
    pub fn tell(&mut self, text: &[u8]) -> bool
        ensures { OnTrue result (Told E.contents self.old self.new text.now) }
    {
        let written = self.error.write_all(text);
        self.is_written(written)
    }

    // To standard output, what a value is written as.
    pub fn print_value<D: Display + Drop>(&mut self, value: D) -> bool
        ensures { OnTrue result (IfSome (D.output value) (Printed O.contents self.old self.new)) }
    {
        let written = self.output.write_fmt(value);
        self.is_written(written)
    }

    // The same to standard error.
    pub fn tell_value<D: Display + Drop>(&mut self, value: D) -> bool
        ensures { OnTrue result (IfSome (D.output value) (Told E.contents self.old self.new)) }
    {
        let written = self.error.write_fmt(value);
        self.is_written(written)
    }

    // The first so many bytes, or all where there are fewer. The type of a call's buffer does not say the size that the call answers, so it is handed on beside it.
    pub fn print_front(&mut self, text: &[u8], size: usize) -> bool
        ensures { OnTrue result (Printed O.contents self.old self.new (take size text.now)) }
    {
        if size < text.len() {
            return self.print(&text[..size]);
        }
        self.print(text)
    }

    // What a value is written as behind a space, as the fields of a line are.
    pub fn print_field<D: Display + Drop>(&mut self, value: D) -> bool
        ensures { OnTrue result (IfSome (D.output value) (λ text. Printed O.contents self.old self.new (field text))) }
    {
        self.print_value(format_args!(" {value}"))
    }

    // That the file of this name cannot be read.
    pub fn say_unreadable(&mut self, name: &[u8])
        ensures { self.new.output ≡ self.old.output }
    {
        self.say(b"UNREADABLE ");
        self.say(name);
        self.say(b"\n");
    }
}
