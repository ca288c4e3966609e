// What reading a file says beside its number, for whoever prints both.

ghost use Rattle.std.specs.Prelude.{◌≡◌};
ghost use Rattle.job_rules.specs.Read.{said_read};

use job_rules::{Job, Program};
use register::Register;
use table::refusal::Refusal;
use table::{Count, Edition};

// The job that was read; of a refusal the one of no words and no registers, all zero and of the first edition.
pub fn job_in(read: &Result<Job, Refusal>) -> Job
    ensures { result ≡ (said_read read.now).job }
{
    match read {
        Ok(job) => *job,
        Err(_) => Job {
            program: Program {
                words: [0; 64],
                n: Count(0),
                edition: Edition::One,
            },
            registers: [Register::ZERO; 32],
            r: 0,
        },
    }
}
