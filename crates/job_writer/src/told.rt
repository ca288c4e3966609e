// What writing a file says beside its number, for whoever prints both.

ghost use Rattle.std.specs.Prelude.{◌≡◌};
ghost use Rattle.job_rules.specs.Write.{said_written};

use table::refusal::Refusal;

// The size of what was written, 0 of a refusal.
pub fn size_in(written: &Result<usize, Refusal>) -> usize
    ensures { result ≡ (said_written written.now).size }
{
    match written {
        Ok(size) => *size,
        Err(_) => 0,
    }
}
