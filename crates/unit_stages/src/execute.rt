// EX: what an instruction gives from the values latched in ID, with what WB writes in this cycle.

ghost use Rattle.std.specs.Prelude.{◌≡◌};
ghost use Rattle.unit_rules.specs.Stages.{executed_by};

use crate::forward::newest_operands;
use alu::result;
use unit_rules::{ExWb, IdEx, Write};

// EX's latch after the cycle.
pub fn executed(write: Write, latch: IdEx) -> ExWb
    ensures { result ≡ executed_by write latch }
{
    let (i, o) = latch?;
    let o = newest_operands(write, i, o);
    Some((i, result(i.word, o.first, o.second, o.third)))
}
