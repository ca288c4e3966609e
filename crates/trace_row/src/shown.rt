// What the row of a cycle says.

ghost use Rattle.std.specs.Prelude.{◌≡◌, false, ◌||◌};
ghost use Rattle.register.specs.Layout.{zero_register};
ghost use Rattle.unit_rules.specs.Stages.{decoded_with};
ghost use Rattle.trace_rules.specs.RowOfCycle.{stage_of, writes_to, flags_for, flags_of, change_to, change_of, shown_by};

use alu_rules::Outcome;
use register::Register;
use row_rules::{Change, Flags, Row, Stage};
use table::{Pointer, operands};
use unit_record::latches::{in_decoded, in_executed};
use unit_rules::{ExWb, IfId, InFlight, Instruction};
use unit_stages::forward::{takes_first, takes_second, takes_third};

fn stage(latch: IfId) -> Stage
    ensures { result ≡ stage_of latch }
{
    latch.map(|i| i.word)
}

fn writes_to(latch: ExWb, p: Pointer) -> bool
    ensures { result ≡ writes_to latch p }
{
    match latch {
        Some((i, _)) => i.target == Some(p),
        None => false,
    }
}

// Whether WB writes a register that a field of the instruction names, read or not: as in `forward` of crate `unit_stages`, of a latch in place of what it writes.
fn names_written(wb: ExWb, i: Instruction) -> bool
    ensures { result ≡ (writes_to wb i.first || writes_to wb i.second || writes_to wb i.third) }
{
    writes_to(wb, i.first) || writes_to(wb, i.second) || writes_to(wb, i.third)
}

// What the table says is read decides, as it does for forwarding.
fn flags_by_table(wb: ExWb, i: Instruction) -> Flags
    ensures { result ≡ flags_for wb i }
{
    let reads = operands::reads(i.word);
    Flags {
        rs1: takes_first(reads) && writes_to(wb, i.first),
        rs2: takes_second(reads) && writes_to(wb, i.second),
        rs3: takes_third(reads) && writes_to(wb, i.third),
    }
}

fn no_flags() -> Flags
    ensures { result ≡ record { rs1 = false; rs2 = false; rs3 = false } }
{
    Flags {
        rs1: false,
        rs2: false,
        rs3: false,
    }
}

// The table is asked only where WB writes a register that the instruction could read.
fn flags_for(wb: ExWb, i: Instruction) -> Flags
    ensures { result ≡ flags_for wb i }
{
    if !names_written(wb, i) {
        return no_flags();
    }
    flags_by_table(wb, i)
}

fn flags(wb: ExWb, ex: IfId) -> Flags
    ensures { result ≡ flags_of wb (decoded_with ex (record { first = zero_register; second = zero_register; third = zero_register })) }
{
    match ex {
        None => no_flags(),
        Some(i) => flags_for(wb, i),
    }
}

// The outcome is put together field by field: handed on whole, it is moved through memory in other pieces than those in which it is read, and each row waits
// for that.
fn change_to(target: Option<Pointer>, outcome: Outcome) -> Change
    ensures { result ≡ change_to target outcome }
{
    let v = outcome.value;
    let value = Register {
        w0: v.w0,
        w1: v.w1,
        w2: v.w2,
        w3: v.w3,
    };
    Some((
        target?,
        Outcome {
            value,
            mark: outcome.mark,
        },
    ))
}

fn change(latch: ExWb) -> Change
    ensures { result ≡ change_of latch }
{
    let (i, o) = latch?;
    change_to(i.target, o)
}

// The row of a cycle, from its number, what IF delivers in it and what the latches hold at its start, ID/EX without its values: a row shows nothing of them, and
// in the contract zeros stand for them.
pub fn row_of_stages(
    cycle: u32,
    delivered: IfId,
    fetched: IfId,
    decoding: IfId,
    executed: ExWb,
) -> Row
    ensures { result ≡ shown_by cycle delivered fetched (decoded_with decoding (record { first = zero_register; second = zero_register; third = zero_register })) executed }
{
    Row {
        cycle,
        fetch: stage(delivered),
        decode: stage(fetched),
        execute: stage(decoding),
        write: stage(in_executed(executed)),
        flags: flags(executed, decoding),
        change: change(executed),
    }
}

// The row of a cycle, from its number, what was in flight at its start and what IF delivers in it.
pub fn row_of_cycle(cycle: u32, flight: InFlight, delivered: IfId) -> Row
    ensures { result ≡ shown_by cycle delivered flight.fetched flight.decoded flight.executed }
{
    row_of_stages(
        cycle,
        delivered,
        flight.fetched,
        in_decoded(flight.decoded),
        flight.executed,
    )
}
