// The instruction of a word, the one that a latch holds, and whether it is the one that it should hold.

ghost use Rattle.std.specs.Prelude.{◌≡◌};
ghost use Rattle.unit_rules.specs.Cycle.{instruction_of};
ghost use Rattle.unit_rules.specs.Record.{in_decoded, in_executed};

use table::{Edition, fields, writes};
use unit_rules::{ExWb, IdEx, IfId, Instruction};

// The instruction of a word on a card of this edition, as it goes through the latches.
pub fn instruction(edition: Edition, word: u32) -> Instruction
    ensures { result ≡ instruction_of edition word }
{
    Instruction {
        word: word,
        first: fields::first(word),
        second: fields::rs2(word),
        third: fields::rs3(word),
        target: writes::target_of(edition, word),
    }
}

// What ID/EX holds, without its values. This and the next are a line each: one function for both would need a name that tells neither latch.
pub fn in_decoded(latch: IdEx) -> IfId
    ensures { result ≡ in_decoded latch }
{
    latch.map(|(i, _)| i)
}

// What EX/WB holds, without its values.
pub fn in_executed(latch: ExWb) -> IfId
    ensures { result ≡ in_executed latch }
{
    latch.map(|(i, _)| i)
}
