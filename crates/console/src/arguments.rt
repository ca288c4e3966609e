// Files that are named as arguments, by the argument's number. Argument 0 is the program's own name.

ghost use Rattle.std.specs.Prelude.{◌≡◌, ◌≤◌, IfOk, length};
ghost use Rattle.std.specs.Borrow.{sem};
ghost use Rattle.console.specs.Input.{CameInto, LeavesPart};

use crate::input::{Unreadable, fill_named, front};
use crate::output::Streams;
use std::env::FillError;
use std::io::Write;
use std::rt::{Env, Files};

// As many bytes as the longest path has, and the zero byte behind it.
pub const PATH_MAX: usize = 4096;

// Whether there is an argument of that number.
pub fn is_argument<A: Env>(arguments: &A, number: usize) -> bool {
    !matches!(arguments.arg(number, &mut []), Err(FillError::NotPresent))
}

// The bytes of an argument. Of one that is longer than the room, or that is not there, there are none.
pub fn name_of<'a, A: Env>(arguments: &A, number: usize, room: &'a mut [u8]) -> &'a [u8]
    ensures { length result.now ≤ length room.old }
{
    let size = arguments.arg(number, room).unwrap_or(0);
    &room[..size]
}

// An argument on a line of its own. Of one that is longer than any path nothing is known but that it names no file: its line is empty.
pub fn print_argument<A: Env, O: Write, E: Write>(
    arguments: &A,
    streams: &mut Streams<O, E>,
    number: usize,
) {
    streams.print(name_of(arguments, number, &mut [0u8; PATH_MAX]));
    streams.print(b"\n");
}

// Reads the file of that name into the room: how many bytes came, at its front. Where it cannot be read, standard error says so.
pub fn fill_argument<R: Env + Files, O: Write, E: Write>(
    rt: &R,
    streams: &mut Streams<O, E>,
    number: usize,
    room: &mut [u8],
) -> Result<usize, Unreadable>
    ensures into { CameInto result room.new }
    ensures output { streams.new.output ≡ streams.old.output }
{
    let mut name_room = [0u8; PATH_MAX];
    let name = name_of(rt, number, &mut name_room);
    let came = fill_named(rt, name, room);
    if came.is_err() {
        streams.say_unreadable(name);
    }
    came
}

// The same, and what came is handed out.
pub fn read_argument<'a, R: Env + Files, O: Write, E: Write>(
    rt: &R,
    streams: &mut Streams<O, E>,
    number: usize,
    room: &'a mut [u8],
) -> Result<&'a [u8], Unreadable>
    ensures* front { sem 𝓛 (LeavesPart room.entry result) }
    ensures into { IfOk result (λ part. length part.now ≤ length room.old) }
    ensures output { streams.new.output ≡ streams.old.output }
{
    let came = fill_argument(rt, streams, number, room);
    front(room, came)
}

// For each file that is named, in their order: its name on a line, and then what is printed of its bytes, or where they cannot be read.
pub fn for_each_file<R, O, E, F>(
    rt: &R,
    streams: &mut Streams<O, E>,
    room: &mut [u8],
    print_file: F,
)
where
    R: Env + Files,
    O: Write,
    E: Write,
    F: Fn(&mut Streams<O, E>, Result<&[u8], Unreadable>),
    requires { F.IsAlwaysCallable print_file }
{
    for number in 1..usize::MAX {
        if !is_argument(rt, number) {
            return;
        }
        print_argument(rt, streams, number);
        let file = read_argument(rt, streams, number, room);
        print_file(streams, file);
    }
}
