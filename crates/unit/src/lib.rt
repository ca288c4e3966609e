// The calls on a unit, by value: a unit goes in and comes back, and on a refusal it comes back as it was given.

#![tactic(auto)]

ghost use Rattle.std.specs.Prelude.{◌≡◌};
ghost use Rattle.std.specs.declared.result.Result.TheVariants.{Err};
ghost use Rattle.unit_rules.specs.Answers.{said_cycled, said_ran};
ghost use Rattle.unit_rules.specs.Calls.{cycled_of, ran_of};

mod ask;
mod begin;
mod cycles;
mod settled;
pub mod told;

pub use crate::ask::{drained, register_of};
pub use crate::begin::{fresh, go, load};
use crate::cycles::one_by_one;
use crate::settled::cycles;
use table::refusal::Refusal;
use unit_record::numbers::last;
use unit_record::{is_drained, well_made};
use unit_rules::{Answered, Unit};

// A refusal, beside the unit as it was given.
pub(crate) fn refused<T: Copy>(why: Refusal, unit: Unit) -> Answered<T>
    ensures { result ≡ record { answer = Err why; unit = unit } }
{
    Answered {
        answer: Err(why),
        unit,
    }
}

// Makes one cycle. Refused with 10 where the record is not well made, with 8 where the unit is drained.
#[tactic(auto, using(table::proofs::Decided::deciding), unfolding(unit_rules::specs::Calls::cycled_of))]
pub fn cycle(u: Unit) -> Answered<()>
    ensures { said_cycled result ≡ cycled_of u }
{
    if !well_made(u) {
        return refused(Refusal::State, u);
    }
    if is_drained(u) {
        return refused(Refusal::Drained, u);
    }
    Answered {
        answer: Ok(()),
        unit: one_by_one(u, 1),
    }
}

// Makes as many cycles as the budget allows and the unit has left, and answers how many. Refused with 10 only: a drained unit makes 0. They are not gone through one
// by one, but by the lines that complete in them.
#[tactic(auto, using(table::proofs::Decided::deciding), unfolding(unit_rules::specs::Calls::ran_of))]
pub fn run(u: Unit, budget: u32) -> Answered<u32>
    ensures { said_ran result ≡ ran_of u budget }
{
    if !well_made(u) {
        return refused(Refusal::State, u);
    }
    if is_drained(u) {
        return Answered {
            answer: Ok(0),
            unit: u,
        };
    }
    let made = budget.min(last(u.program.n) - u.cycle);
    Answered {
        answer: Ok(made),
        unit: cycles(u, made),
    }
}
