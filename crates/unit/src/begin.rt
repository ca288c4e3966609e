// How a unit begins: a fresh one; a job file loaded; and a go on what is loaded.

ghost use Rattle.std.specs.Prelude.{◌≤◌, ◌≡◌};
ghost use Rattle.job_rules.specs.Read.{read_of};
ghost use Rattle.unit_rules.specs.Answers.{said_gone, said_loaded};
ghost use Rattle.unit_rules.specs.Calls.{begun_of, registers_set, fresh_of, loaded_of, loaded_by, load_of, go_of};

use crate::refused;
use job_rules::{Job, Program};
use register::Register;
use table::refusal::Refusal;
use table::{Count, Edition, Pointer, writes};
use unit_record::{is_drained, well_made};
use unit_rules::{Answered, Unit};

// A unit before its first cycle: the latches empty, count and cycle number zero.
fn begun(gone: bool, program: Program, registers: [Register; 32]) -> Unit
    ensures { result ≡ begun_of gone program registers }
{
    Unit {
        program,
        count: Count(0),
        cycle: 0,
        registers,
        fetched: None,
        decoded: None,
        executed: None,
        gone,
    }
}

// A unit that has had no job: no lines, registers zero, drained.
pub fn fresh() -> Unit
    ensures { result ≡ fresh_of }
{
    let program = Program {
        words: [0u32; 64],
        n: Count(0),
        edition: Edition::One,
    };
    begun(false, program, [Register::ZERO; 32])
}

// Registers 0 to r - 1 from the file; the others stay.
#[tactic(auto, using(crate::proofs::Loading::next_set))]
fn set_registers(job: &Job, registers: &mut [Register; 32])
    requires { job.now.r ≤ 32 }
    ensures { registers.new ≡ registers_set job.now.r job.now.registers registers.old }
{
    for i in 0..job.r {
        registers[i] = job.registers[i];
    }
}

// A job on a unit. Register 0 is cleared where the edition wires it.
fn loaded(u: Unit, job: &Job) -> Unit
    requires { job.now.r ≤ 32 }
    ensures { result ≡ loaded_of job.now u }
{
    let mut registers = u.registers;
    set_registers(job, &mut registers);
    if writes::is_wired(job.program.edition, Pointer(0)) {
        registers[0] = Register::ZERO;
    }
    begun(false, job.program, registers)
}

// Loads the job of a file on any unit: refused with 1 to 6, 14 or 15, the first that holds.
#[tactic(auto, using(crate::proofs::Loading::refused, crate::proofs::Loading::few_registers, crate::proofs::Loading::accepted))]
fn load_file(u: Unit, file: &[u8]) -> Answered<()>
    ensures { said_loaded result ≡ loaded_by (read_of file.now) u }
{
    match job_reader::read_job(file) {
        Err(why) => refused(why, u),
        Ok(job) => Answered {
            answer: Ok(()),
            unit: loaded(u, &job),
        },
    }
}

// Loads the job of a file. Refused with 10, with 18 where a run is in progress, then with 1 to 6, 14 or 15; and then the unit is as it was given, and a run in progress
// goes on as before.
#[tactic(auto, using(table::proofs::Decided::deciding), unfolding(unit_rules::specs::Calls::load_of))]
pub fn load(u: Unit, file: &[u8]) -> Answered<()>
    ensures { said_loaded result ≡ load_of file.now u }
{
    if !well_made(u) {
        return refused(Refusal::State, u);
    }
    if !is_drained(u) {
        return refused(Refusal::Busy, u);
    }
    load_file(u, file)
}

// Begins the loaded program on the registers as they stand, from its first line, whatever the unit was doing. Refused with 10 only.
#[tactic(auto, using(table::proofs::Decided::deciding), unfolding(unit_rules::specs::Calls::go_of))]
pub fn go(u: Unit) -> Answered<()>
    ensures { said_gone result ≡ go_of u }
{
    if !well_made(u) {
        return refused(Refusal::State, u);
    }
    Answered {
        answer: Ok(()),
        unit: begun(true, u.program, u.registers),
    }
}
