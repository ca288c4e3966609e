// Cycles made one by one: the registers and what is in flight are the locals of the loop, and nothing of the size of the register file or the program is copied in a cycle.
// Each function asks for itself that the unit is well made and has the cycles left. A struct of a lent unit and a number of cycles, with both as ghost fields, was tried:
// the proof of `by_lines` did not close, since the lengths of the unit's arrays are not known behind it.

ghost use Rattle.std.specs.Prelude.{◌+◌, ◌≤◌, ◌≡◌, true};
ghost use Rattle.unit_rules.specs.Cycle.{cycles_of};
ghost use Rattle.unit_rules.specs.Record.{last_of, well_made_of};
ghost use Rattle.unit_rules.specs.Stages.{unit_with};

use register::Register;
use unit_rules::{InFlight, Unit};
use unit_stages::{in_flight, turn};

// The unit put together again after so many cycles.
pub(crate) fn reassembled(u: Unit, m: u32, registers: [Register; 32], flight: InFlight) -> Unit
    requires { u.cycle + m ≤ 67 }
    ensures { result ≡ unit_with u m registers flight }
{
    Unit {
        program: u.program,
        count: flight.count,
        cycle: u.cycle + m,
        registers,
        fetched: flight.fetched,
        decoded: flight.decoded,
        executed: flight.executed,
        gone: u.gone,
    }
}

// So many cycles of a well-made unit.
pub(crate) fn one_by_one(u: Unit, m: u32) -> Unit
    requires { (well_made_of u ≡ true) × (u.cycle + m ≤ last_of u.program.n.0) }
    ensures { result ≡ cycles_of m u }
{
    // the program alone is copied, once: to lend a part of the unit would copy all of it
    let program = u.program;
    let mut registers = u.registers;
    let mut flight = in_flight(u);
    for _ in 0..m {
        flight = turn(&program, &mut registers, flight);
    }
    reassembled(u, m, registers, flight)
}
