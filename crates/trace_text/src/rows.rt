// The rows of so many cycles, of which the unit is asked the same as in crate `unit`. As in a run, the unit is taken apart once, and nothing of the size of the register file or the program is copied in a cycle.

ghost use Rattle.std.specs.Prelude.{◌+◌, ◌*◌, ◌≤◌, ◌≡◌, true, length};
ghost use Rattle.buffer.specs.Front.{at_front};
ghost use Rattle.row_rules.specs.Text.{row_size};
ghost use Rattle.unit_rules.specs.Record.{last_of, well_made_of};
ghost use Rattle.trace_rules.specs.JobText.{rows_of};

use row::{ROW_SIZE, write_row};
use trace_row::shown::row_of_stages;
use unit_record::latches::in_decoded;
use unit_rules::Unit;
use unit_stages::{in_flight, turn};

pub(crate) fn put_rows(out: &mut [u8], u: Unit, m: u32)
    requires { (well_made_of u ≡ true) × (u.cycle + m ≤ last_of u.program.n.0) × (row_size * m ≤ length out.old) }
    ensures { out.new ≡ at_front (rows_of m u) out.old }
{
    let mut registers = u.registers;
    let mut flight = in_flight(u);
    for made in 0..m {
        let next = turn(&u.program, &mut registers, flight);
        let row = row_of_stages(
            u.cycle + (made + 1),
            next.fetched,
            flight.fetched,
            in_decoded(flight.decoded),
            flight.executed,
        );
        // there is room for every row
        let _ = write_row(out, ROW_SIZE * made as usize, row);
        flight = next;
    }
}
