// What reader, writer and the unit's record share of the two editions: where the instructions begin, and what register 0 may hold.

#![tactic(auto)]

ghost use Rattle.std.specs.Prelude.{◌≡◌};
ghost use Rattle.job_rules.specs.Layout.{instructions_at};
ghost use Rattle.job_rules.specs.Program.{may_hold};

use register::Register;
use table::writes::is_wired;
use table::{Edition, Pointer};

// Where a file's instruction words begin.
pub fn instructions_at(edition: Edition) -> usize
    ensures { result ≡ instructions_at edition }
{
    match edition {
        Edition::One => 8,
        Edition::Two => 12,
    }
}

// Whether register 0 may hold this: only zero where it is wired to it.
pub fn may_hold(edition: Edition, register: Register) -> bool
    ensures { result ≡ may_hold edition register }
{
    !is_wired(edition, Pointer(0)) || register.is_zero()
}
