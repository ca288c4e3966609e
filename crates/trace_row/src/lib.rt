// The call that makes a cycle and writes its row.

#![tactic(auto)]

ghost use Rattle.std.specs.Prelude.{◌≡◌};
ghost use Rattle.unit_rules.specs.Answers.{said_cycled};
ghost use Rattle.trace_rules.specs.Call.{traced_of};

pub mod shown;

use crate::shown::row_of_cycle;
use row::write_row;
use unit_rules::{Answered, Unit};
use unit_stages::in_flight;

// Makes one cycle and writes its row into the buffer from `start` on. Refused with 10, 8 or 9, the first that holds, and then unit and buffer are as they were.
pub fn cycle_with_row(u: Unit, buffer: &mut [u8], start: usize) -> Answered<()>
    ensures { (said_cycled result, buffer.new) ≡ traced_of u start buffer.old }
{
    let after = unit::cycle(u);
    if let Err(_) = after.answer {
        return after;
    }
    let row = row_of_cycle(after.unit.cycle, in_flight(u), after.unit.fetched);
    if let Err(why) = write_row(buffer, start, row) {
        return Answered {
            answer: Err(why),
            unit: u,
        };
    }
    after
}
