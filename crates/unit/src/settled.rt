// Many cycles at once, by the lines that complete in them. Where all that a unit's latches hold is told by its registers, the cycles that follow need not be made
// one by one: the lines that complete are executed one after another on the registers, and count and latches are filled from these.

ghost use Rattle.std.specs.Prelude.{◌+◌, ◌≤◌, ◌≡◌, true};
ghost use Rattle.unit_rules.specs.Cycle.{cycles_of};
ghost use Rattle.unit_rules.specs.Record.{last_of, well_made_of};
ghost use Rattle.unit_rules.specs.Settled.{settled_flight, Settled};

use crate::cycles::{one_by_one, reassembled};
use job_rules::Program;
use plain::lines::execute_lines;
use register::Register;
use unit_record::fetched_in;
use unit_record::numbers::count_at;
use unit_rules::{InFlight, Unit};
use unit_stages::decode::{decoded, read_at, read_from};
use unit_stages::execute::executed;

// Count and latches at cycle c of a program, where the registers tell the values.
fn flight_at(program: &Program, c: u32, registers: &[Register; 32]) -> InFlight
    ensures { result ≡ settled_flight program.now c registers.now }
{
    let in_cycle = |k| fetched_in(program.edition, &program.words, program.n, k);
    let fetched = in_cycle(c);
    let decoding = in_cycle(c.saturating_sub(1));
    let executing = in_cycle(c.saturating_sub(2));
    let latched = decoded(executing, read_at(read_from(executing), registers));
    InFlight {
        count: count_at(program.n, c),
        fetched,
        decoded: decoded(decoding, read_at(read_from(decoding), registers)),
        executed: executed(None, latched),
    }
}

// So many cycles of a unit that is settled.
fn by_lines(u: Unit, m: u32) -> Unit
    requires { Settled u × (well_made_of u ≡ true) × (u.cycle + m ≤ last_of u.program.n.0) }
    ensures { result ≡ cycles_of m u }
{
    let program = &u.program;
    let c = u.cycle + m;
    let start = u.cycle.saturating_sub(3) as usize;
    let end = c.saturating_sub(3) as usize;
    let registers = execute_lines(program.edition, &program.words[start..end], u.registers);
    let flight = flight_at(program, c, &registers);
    reassembled(u, m, registers, flight)
}

// So many cycles of a well-made unit, by lines. Before cycle 2 it has latched no value; later it is settled once two cycles are made, whatever values it has latched.
pub(crate) fn cycles(u: Unit, m: u32) -> Unit
    requires { (well_made_of u ≡ true) × (u.cycle + m ≤ last_of u.program.n.0) }
    ensures { result ≡ cycles_of m u }
{
    if u.cycle < 2 {
        return by_lines(u, m);
    }
    if m < 3 {
        return one_by_one(u, m);
    }
    let settled = one_by_one(u, 2);
    by_lines(settled, m - 2)
}
