// Calls that ask, and leave the unit as it is.

ghost use Rattle.std.specs.Prelude.{◌≡◌};
ghost use Rattle.unit_rules.specs.Answers.{said_register, said_drained};
ghost use Rattle.unit_rules.specs.Calls.{register_of, asked_drained};

use register::Register;
use table::refusal::Refusal;
use unit_record::{is_drained, well_made};
use unit_rules::Unit;

// The register of that number as it stands. Refused with 10, then with 7 over 31.
#[tactic(auto, using(table::proofs::Decided::deciding), unfolding(unit_rules::specs::Calls::register_of))]
pub fn register_of(u: Unit, number: usize) -> Result<Register, Refusal>
    ensures { said_register result ≡ register_of u number }
{
    if !well_made(u) {
        return Err(Refusal::State);
    }
    if number > 31 {
        return Err(Refusal::Pointer);
    }
    Ok(u.registers[number])
}

// Whether all of the job is done. Refused with 10.
#[tactic(auto, using(table::proofs::Decided::deciding), unfolding(unit_rules::specs::Calls::asked_drained))]
pub fn drained(u: Unit) -> Result<bool, Refusal>
    ensures { said_drained result ≡ asked_drained u }
{
    if !well_made(u) {
        return Err(Refusal::State);
    }
    Ok(is_drained(u))
}
