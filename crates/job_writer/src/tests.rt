// The writer's tests, in the order of the rules.

ghost use Rattle.std.specs.Prelude.{◌≡◌, get_or};
ghost use Rattle.register.specs.Layout.{zero_register};
ghost use Rattle.job_rules.specs.Layout.{register_count, registers_of};
ghost use Rattle.job_rules.specs.Program.{may_hold};
ghost use Rattle.job_rules.specs.Write.{said_written, size_or_refusal};

use crate::registers::first_register;
use job_layout::{instructions_at, may_hold};
use table::Edition;
use table::refusal::{Refusal, first_bad};

// Whether register 0 of the bytes may hold what they say.
fn first_held(edition: Edition, registers: &[u8]) -> bool
    ensures { result ≡ may_hold edition (get_or (registers_of (register_count registers.now) registers.now) 0 zero_register) }
{
    may_hold(edition, first_register(registers))
}

// What the writer answers to a job of this edition where the buffer has so many bytes: the size of the file, or the refusal.
pub fn size_or_refusal(
    edition: Edition,
    words: &[u32],
    registers: &[u8],
    room: usize,
) -> Result<usize, Refusal>
    ensures { said_written result ≡ size_or_refusal edition words.now registers.now room }
{
    if words.len() > 64 {
        return Err(Refusal::Count);
    }
    if registers.len() > 512 {
        return Err(Refusal::Regs);
    }
    if registers.len() % 16 != 0 {
        return Err(Refusal::Regs);
    }
    let bad = first_bad(words);
    if bad < words.len() {
        return Err(Refusal::Word(bad));
    }
    if !first_held(edition, registers) {
        return Err(Refusal::Nonzero);
    }
    let size = instructions_at(edition) + 4 * words.len() + registers.len();
    if room < size {
        return Err(Refusal::Room);
    }
    Ok(size)
}
