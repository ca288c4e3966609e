// Reading into a lent buffer, in as many pieces as it comes in.

ghost use Rattle.std.specs.Prelude.{◌≡◌, ◌<◌, ◌≤◌, IfOk, MatchResult, OnOk, length, take};
ghost use Rattle.std.specs.Io.{ReadsAtMost};
ghost use Rattle.std.specs.Io.KnownBytes.{Consumes, IsAtEnd};
ghost use Rattle.std.specs.Borrow.{sem};
ghost use Rattle.console.specs.Input.{CameInto, CameFrom, PartFrom, LeavesPart};

use crate::output::Streams;
use std::io::{ErrorKind, Read, Write};
use std::rt::Files;
use std::{fs, io};

// An input that could not be read. What came of it before that is of no use.
#[derive(Clone, Copy)]
pub struct Unreadable;

// One read that no signal interrupts. A proved loop has to end, and nothing says that signals do, so it counts its turns down from a number that no run uses up.
fn read_once<R: Read>(input: &mut R, room: &mut [u8]) -> io::Result<usize>
    ensures bound { ReadsAtMost result room.new }
    ensures bytes { IfOk result (λ n. Consumes (R.remaining input.old) (R.remaining input.new) (take n room.new)) }
    ensures end { IfOk result (λ n. n ≡ 0 → 0 < length room.new → IsAtEnd (R.remaining input.new)) }
{
    for _ in 0..u64::MAX {
        match input.read(room) {
            Err(e) if e.kind() == ErrorKind::Interrupted => {}
            got => return got,
        }
    }
    Err(io::Error::from(ErrorKind::Interrupted))
}

// Reads until the input ends or the room is full: how many bytes came, at the front of the room.
pub fn fill<R: Read>(input: &mut R, room: &mut [u8]) -> Result<usize, Unreadable>
    ensures into { CameInto result room.new }
    ensures bytes { CameFrom (R.remaining input.old) (R.remaining input.new) result room.new }
{
    let mut size = 0;
    while size < room.len() {
        match read_once(input, &mut room[size..]) {
            Err(_) => return Err(Unreadable),
            Ok(0) => break,
            Ok(more) => size += more,
        }
    }
    Ok(size)
}

// The same of standard input. Where it cannot be read, standard error says so.
pub fn fill_input<R: Read, O: Write, E: Write>(
    input: &mut R,
    streams: &mut Streams<O, E>,
    room: &mut [u8],
) -> Result<usize, Unreadable>
    ensures into { CameInto result room.new }
    ensures bytes { CameFrom (R.remaining input.old) (R.remaining input.new) result room.new }
    ensures output { streams.new.output ≡ streams.old.output }
{
    let came = fill(input, room);
    if came.is_err() {
        streams.say(b"UNREADABLE\n");
    }
    came
}

// The same of the file of that name: one that cannot be opened cannot be read.
pub fn fill_named<F: Files>(files: &F, name: &[u8], room: &mut [u8]) -> Result<usize, Unreadable>
    ensures { CameInto result room.new }
{
    let Ok(path) = str::from_utf8(name) else {
        return Err(Unreadable);
    };
    match fs::open(files, path) {
        Ok(mut file) => fill(&mut file, room),
        Err(_) => Err(Unreadable),
    }
}

// The room's front, as far as bytes came.
pub(crate) fn front<'a>(
    room: &'a [u8],
    came: Result<usize, Unreadable>,
) -> Result<&'a [u8], Unreadable>
    requires { IfOk came (λ size. size ≤ length room.now) }
    ensures { MatchResult came (λ size. IfOk result (λ part. part.now ≡ take size room.now)) (λ _. OnOk result ⊥) }
{
    Ok(&room[..came?])
}

// `fill`, and what came is handed out. Once that is given back, the room is as `fill` left it.
pub fn read_open<'a, R: Read>(input: &mut R, room: &'a mut [u8]) -> Result<&'a [u8], Unreadable>
    ensures* front { sem 𝓛 (LeavesPart room.entry result) }
    ensures into { IfOk result (λ part. length part.now ≤ length room.old) }
    ensures bytes { IfOk result (λ part. PartFrom (R.remaining input.old) (R.remaining input.new) (length room.old) part.now) }
{
    let came = fill(input, room);
    front(room, came)
}

// The same of standard input. Where it cannot be read, standard error says so.
pub fn read_input<'a, R: Read, O: Write, E: Write>(
    input: &mut R,
    streams: &mut Streams<O, E>,
    room: &'a mut [u8],
) -> Result<&'a [u8], Unreadable>
    ensures* front { sem 𝓛 (LeavesPart room.entry result) }
    ensures into { IfOk result (λ part. length part.now ≤ length room.old) }
    ensures bytes { IfOk result (λ part. PartFrom (R.remaining input.old) (R.remaining input.new) (length room.old) part.now) }
    ensures output { streams.new.output ≡ streams.old.output }
{
    let read = read_open(input, room);
    tell_unreadable(streams, read)
}

// Where nothing could be read, standard error says so.
fn tell_unreadable<'a, O: Write, E: Write>(
    streams: &mut Streams<O, E>,
    read: Result<&'a [u8], Unreadable>,
) -> Result<&'a [u8], Unreadable>
    ensures same { result ≡ read.entry }
    ensures output { streams.new.output ≡ streams.old.output }
{
    if read.is_err() {
        streams.say(b"UNREADABLE\n");
    }
    read
}

// The same of the file of that name.
pub fn read_named<'a, F: Files>(
    files: &F,
    name: &[u8],
    room: &'a mut [u8],
) -> Result<&'a [u8], Unreadable>
    ensures* front { sem 𝓛 (LeavesPart room.entry result) }
    ensures into { IfOk result (λ part. length part.now ≤ length room.old) }
{
    let came = fill_named(files, name, room);
    front(room, came)
}
