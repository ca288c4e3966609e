// ID: where it reads, and what it latches of what was read there.

ghost use Rattle.std.specs.Prelude.{◌≡◌, get_or};
ghost use Rattle.register.specs.Layout.{zero_register};
ghost use Rattle.unit_rules.specs.Stages.{sources_of, read_at, decoded_with};

use register::Register;
use table::Pointer;
use unit_rules::{IdEx, IfId, Operands, Sources};

// The registers that ID reads: all three fields name one, whether the instruction reads it or not.
pub fn read_from(latch: IfId) -> Sources
    ensures { result ≡ sources_of latch }
{
    match latch {
        None => Sources {
            first: Pointer(0),
            second: Pointer(0),
            third: Pointer(0),
        },
        Some(i) => Sources {
            first: i.first,
            second: i.second,
            third: i.third,
        },
    }
}

fn value_at(pointer: Pointer, registers: &[Register; 32]) -> Register
    ensures { result ≡ get_or registers.now pointer.0 zero_register }
{
    let at = pointer.0 as usize;
    registers.get(at).copied().unwrap_or(Register::ZERO)
}

// What ID reads there. No pointer of an instruction is beyond the registers; a record that is not well made may have one, and it reads zero.
pub fn read_at(from: Sources, registers: &[Register; 32]) -> Operands
    ensures { result ≡ read_at from registers.now }
{
    Operands {
        first: value_at(from.first, registers),
        second: value_at(from.second, registers),
        third: value_at(from.third, registers),
    }
}

// ID's latch after the cycle.
pub fn decoded(latch: IfId, read: Operands) -> IdEx
    ensures { result ≡ decoded_with latch read }
{
    latch.map(|i| (i, read))
}
