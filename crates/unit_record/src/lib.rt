// Whether a unit's record is well made, and whether the unit is drained.

#![tactic(auto)]

ghost use Rattle.std.specs.Prelude.{◌≡◌, get_or};
ghost use Rattle.unit_rules.specs.Record.{all_empty, drained_of, in_decoded, in_executed, latches_made, run_made, rest_made, well_made_of};
ghost use Rattle.unit_rules.specs.Cycle.{fetched_in};

pub mod latches;
pub mod numbers;

use crate::latches::{in_decoded, in_executed, instruction};
use crate::numbers::{numbers_made, program_made};
use job_layout::may_hold;
use job_rules::Program;
use table::{Count, Edition};
use unit_rules::{IfId, Unit};

// The word of a line, and 0 where there is no such word.
fn word_at(words: &[u32], line: usize) -> u32
    ensures { result ≡ get_or words.now line 0 }
{
    words.get(line).copied().unwrap_or(0)
}

// What IF delivers in cycle c, counted from 1 at the go: line c - 1, or nothing outside 0 .. n - 1. It takes any words, fewer or more than 64: a `&Program` would ask more
// of its callers.
pub fn fetched_in(edition: Edition, words: &[u32], n: Count, c: u32) -> IfId
    ensures { result ≡ fetched_in (record { words = words.entry.now; n = n; edition = edition }) c }
{
    if c == 0 {
        return None;
    }
    let line = (c - 1) as usize;
    if line < n.0 as usize {
        return Some(instruction(edition, word_at(words, line)));
    }
    None
}

// What the three latches hold between two cycles, without their values.
#[derive(Clone, Copy)]
struct Held {
    fetched: IfId,
    decoded: IfId,
    executed: IfId,
}

impl Held {
    fn in_latches_of(u: Unit) -> Held
        ensures { result ≡ record { fetched = u.fetched; decoded = in_decoded u.decoded; executed = in_executed u.executed } }
    {
        Held {
            fetched: u.fetched,
            decoded: in_decoded(u.decoded),
            executed: in_executed(u.executed),
        }
    }

    // Whether that is nothing in any of them.
    fn is_nothing(self) -> bool
        ensures { result ≡ all_empty self.fetched self.decoded self.executed }
    {
        self.fetched.is_none() && self.decoded.is_none() && self.executed.is_none()
    }

    // Whether that is what was fetched in cycle c and in the two before it.
    fn is_fetched_by(self, program: &Program, c: u32) -> bool
        ensures { result ≡ latches_made program.now c self.fetched self.decoded self.executed }
    {
        let words = &program.words;
        let edition = program.edition;
        let n = program.n;
        self.fetched == fetched_in(edition, words, n, c)
            && self.decoded == fetched_in(edition, words, n, c.saturating_sub(1))
            && self.executed == fetched_in(edition, words, n, c.saturating_sub(2))
    }
}

// Whether count, cycle number and latches are those of a unit that has gone.
fn run_made(program: &Program, count: Count, c: u32, held: Held) -> bool
    ensures { result ≡ run_made program.now count.0 c held.fetched held.decoded held.executed }
{
    numbers_made(program.n, count, c) && held.is_fetched_by(program, c)
}

// Whether they are those of a unit that is loaded and has not gone.
fn rest_made(count: Count, c: u32, held: Held) -> bool
    ensures { result ≡ rest_made count.0 c held.fetched held.decoded held.executed }
{
    count.0 == 0 && c == 0 && held.is_nothing()
}

// Whether a record is well made: the test for refusal 10.
#[tactic(auto, unfolding(unit_rules::specs::Record::well_made_of))]
pub fn well_made(u: Unit) -> bool
    ensures { result ≡ well_made_of u }
{
    // the program alone is copied: to lend a part of the unit would copy all of it
    let program = u.program;
    if !program_made(&program.words, program.n) || !may_hold(program.edition, u.registers[0]) {
        return false;
    }
    let held = Held::in_latches_of(u);
    if u.gone {
        return run_made(&program, u.count, u.cycle, held);
    }
    rest_made(u.count, u.cycle, held)
}

// Whether a unit is drained, of any record whatsoever.
#[tactic(auto, unfolding(unit_rules::specs::Record::drained_of))]
pub fn is_drained(u: Unit) -> bool
    ensures { result ≡ drained_of u }
{
    !u.gone || u.program.n <= u.count && Held::in_latches_of(u).is_nothing()
}
