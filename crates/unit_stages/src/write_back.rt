// WB: what it writes, as one value that the store, EX and the row share.

ghost use Rattle.std.specs.Prelude.{◌≡◌};
ghost use Rattle.unit_rules.specs.Stages.{write_of, stored_by};

use register::Register;
use unit_rules::{ExWb, Write};

// What WB writes in the cycle.
pub fn written(latch: ExWb) -> Write
    ensures { result ≡ write_of latch }
{
    let (i, o) = latch?;
    Some((i.target?, o.value))
}

// The registers after that write. No target of an instruction is beyond them.
pub fn store(registers: &mut [Register; 32], write: Write)
    ensures { registers.new ≡ stored_by write registers.old }
{
    if let Some((at, value)) = write {
        let at = at.0 as usize;
        if at < 32 {
            registers[at] = value;
        }
    }
}
