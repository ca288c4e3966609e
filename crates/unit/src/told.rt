// What the calls say beside their number, for whoever prints both.

ghost use Rattle.std.specs.Prelude.{◌≡◌};
ghost use Rattle.unit_rules.specs.Answers.{said_ran, said_register, said_drained};

use register::Register;
use table::refusal::Refusal;
use unit_rules::Answered;

// How many cycles a run has made, none of a refusal.
pub fn made_in(ran: &Answered<u32>) -> u32
    ensures { result ≡ (said_ran ran.now).made }
{
    match ran.answer {
        Ok(made) => made,
        Err(_) => 0,
    }
}

// The register that was asked for, zero of a refusal.
pub fn register_in(held: &Result<Register, Refusal>) -> Register
    ensures { result ≡ (said_register held.now).register }
{
    match held {
        Ok(register) => *register,
        Err(_) => Register::ZERO,
    }
}

// Whether all of the job is done, which no refusal says.
pub fn drained_in(drained: &Result<bool, Refusal>) -> bool
    ensures { result ≡ (said_drained drained.now).drained }
{
    match drained {
        Ok(yes) => *yes,
        Err(_) => false,
    }
}
