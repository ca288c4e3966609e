// Reads a script of calls from standard input, one a line, makes them on one unit, which is fresh at first, and prints each line as it is with its answer behind it.

#![tactic(auto)]

mod answers;
mod ask;
mod calls;
mod kept;
mod lines;
mod make;

use console::output::Streams;

fn main(rt: HostRuntime) {
    lines::answer_all(&rt, &mut rt.stdin(), &mut Streams::standard(&rt));
}
