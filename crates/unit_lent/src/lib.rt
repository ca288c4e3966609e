// The calls on a unit that is lent: it is updated where it stands, and on a refusal it stands as it was.

#![tactic(auto)]

ghost use Rattle.std.specs.Prelude.{◌≡◌};
ghost use Rattle.unit_rules.specs.Answers.{beside, said_loaded, said_gone, said_cycled, said_ran, said_register, said_drained};
ghost use Rattle.unit_rules.specs.Calls.{load_of, go_of, cycled_of, ran_of, register_of, asked_drained};
ghost use Rattle.trace_rules.specs.Call.{traced_of};

use register::Register;
use table::refusal::Refusal;
use unit_rules::{Answered, Unit};

// The unit that comes back is stored where the lent one stands, and the answer is handed on.
fn stored<T: Copy>(u: &mut Unit, after: Answered<T>) -> Result<T, Refusal>
    ensures answer { result ≡ after.answer }
    ensures unit { u.new ≡ after.unit }
{
    *u = after.unit;
    after.answer
}

// Loads the job of a file on the unit: refused with 10 where the record is not well made, with 18 where a run is in progress, or with 1 to 6, 14 or 15, the first that
// holds, and with 6 the place of the first bad word.
pub fn load(u: &mut Unit, file: &[u8]) -> Result<(), Refusal>
    ensures { said_loaded (beside result u.new) ≡ load_of file.now u.old }
{
    let loaded = unit::load(*u, file);
    stored(u, loaded)
}

// Begins the loaded program on the registers as they stand: refused with 10.
pub fn go(u: &mut Unit) -> Result<(), Refusal>
    ensures { said_gone (beside result u.new) ≡ go_of u.old }
{
    let gone = unit::go(*u);
    stored(u, gone)
}

// Makes one cycle: refused with 10 where the record is not well made, or with 8 where the unit is drained.
pub fn cycle(u: &mut Unit) -> Result<(), Refusal>
    ensures { said_cycled (beside result u.new) ≡ cycled_of u.old }
{
    let cycled = unit::cycle(*u);
    stored(u, cycled)
}

// Makes one cycle and writes its row into the buffer from `start` on: refused with 10, 8 or 9, and then the buffer is as it was too.
pub fn cycle_with_row(u: &mut Unit, buffer: &mut [u8], start: usize) -> Result<(), Refusal>
    ensures { (said_cycled (beside result u.new), buffer.new) ≡ traced_of u.old start buffer.old }
{
    let cycled = trace_row::cycle_with_row(*u, buffer, start);
    stored(u, cycled)
}

// Makes as many cycles as the budget allows and the unit has left, and answers how many: refused with 10.
pub fn run(u: &mut Unit, budget: u32) -> Result<u32, Refusal>
    ensures { said_ran (beside result u.new) ≡ ran_of u.old budget }
{
    let ran = unit::run(*u, budget);
    stored(u, ran)
}

// The register of that number as it stands: refused with 10, or with 7 over 31.
pub fn register_of(u: &Unit, number: usize) -> Result<Register, Refusal>
    ensures { said_register result ≡ register_of u.now number }
{
    unit::register_of(*u, number)
}

// Whether all of the job is done: refused with 10.
pub fn drained(u: &Unit) -> Result<bool, Refusal>
    ensures { said_drained result ≡ asked_drained u.now }
{
    unit::drained(*u)
}
