// Forwarding: where WB writes a register that EX's instruction reads, its value takes the place of the latched one. The table of what is read decides.

ghost use Rattle.std.specs.Prelude.{◌≡◌};
ghost use Rattle.table.specs.Operation.{takes_first, takes_second, takes_third};
ghost use Rattle.unit_rules.specs.Stages.{newest_by, newest_operands_by};
ghost use Rattle.unit_stages.specs.Named.{names_written};

use register::Register;
use table::{Pointer, Reads, operands};
use unit_rules::{Instruction, Operands, Write};

// Whether the first operand is read: rs1, or li's old rd.
pub fn takes_first(reads: Reads) -> bool
    ensures { result ≡ takes_first reads }
{
    reads != Reads::Nothing
}

// Whether rs2 is read.
pub fn takes_second(reads: Reads) -> bool
    ensures { result ≡ takes_second reads }
{
    matches!(reads, Reads::Rs1Rs2 | Reads::Rs1Rs2Rs3)
}

// Whether rs3 is read.
pub fn takes_third(reads: Reads) -> bool
    ensures { result ≡ takes_third reads }
{
    reads == Reads::Rs1Rs2Rs3
}

// Whether WB writes a register that a field of the instruction names, read or not.
fn names_written(write: Write, i: Instruction) -> bool
    ensures { result ≡ names_written write i }
{
    match write {
        Some((at, _)) => at == i.first || at == i.second || at == i.third,
        None => false,
    }
}

fn newest(reads: bool, write: Write, from: Pointer, latched: Register) -> Register
    ensures { result ≡ newest_by reads write from latched }
{
    match write {
        Some((at, value)) if reads && at == from => value,
        _ => latched,
    }
}

// The operands that EX takes, each by the table of what is read. The table is asked only where WB writes a register that the instruction could read.
#[tactic(auto, using(crate::proofs::Newest::none_named))]
pub fn newest_operands(write: Write, i: Instruction, o: Operands) -> Operands
    ensures { result ≡ newest_operands_by write i o }
{
    if !names_written(write, i) {
        return o;
    }
    let reads = operands::reads(i.word);
    Operands {
        first: newest(takes_first(reads), write, i.first, o.first),
        second: newest(takes_second(reads), write, i.second, o.second),
        third: newest(takes_third(reads), write, i.third, o.third),
    }
}
