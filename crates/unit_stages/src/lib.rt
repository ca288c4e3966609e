// The stages of a cycle, each as a function on latches and single registers. A turn is lent the register file and the program, so that neither is copied once a cycle.

#![tactic(auto)]

ghost use Rattle.std.specs.Prelude.{◌≡◌};
ghost use Rattle.unit_rules.specs.Stages.{in_flight_of, advanced_of, turned_of};

pub mod decode;
pub mod execute;
pub mod fetch;
pub mod forward;
pub mod write_back;

use crate::decode::{decoded, read_at, read_from};
use crate::execute::executed;
use crate::fetch::{delivered, next_count};
use crate::write_back::{store, written};
use job_rules::Program;
use register::Register;
use table::{Count, Edition};
use unit_rules::{InFlight, Operands, Unit, Write};

// What is in flight in a unit.
pub fn in_flight(u: Unit) -> InFlight
    ensures { result ≡ in_flight_of u }
{
    InFlight {
        count: u.count,
        fetched: u.fetched,
        decoded: u.decoded,
        executed: u.executed,
    }
}

// All of a cycle but its write: EX, ID and IF, with what WB writes, what ID reads and the word at the count.
pub fn advanced(
    edition: Edition,
    n: Count,
    flight: InFlight,
    write: Write,
    read: Operands,
    word: u32,
) -> InFlight
    ensures { result ≡ advanced_of edition n flight write read word }
{
    InFlight {
        count: next_count(n, flight.count),
        fetched: delivered(edition, n, flight.count, word),
        decoded: decoded(flight.fetched, read),
        executed: executed(write, flight.decoded),
    }
}

// One cycle of a program, but for its number: the registers after WB's write, and what is in flight afterwards.
pub fn turn(program: &Program, registers: &mut [Register; 32], flight: InFlight) -> InFlight
    ensures { (registers.new, result) ≡ turned_of program.now registers.old flight }
{
    let write = written(flight.executed);
    store(registers, write);
    let read = read_at(read_from(flight.fetched), registers);
    let here = (flight.count.0 % 64) as usize;
    advanced(
        program.edition,
        program.n,
        flight,
        write,
        read,
        program.words[here],
    )
}
