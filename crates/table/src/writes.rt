// The register that a word writes, or none.

ghost use Rattle.std.specs.Prelude.{◌≡◌};
ghost use Rattle.table.specs.Operation.{is_nop, is_wired, target_of};

use crate::fields::{code, is_li, is_multiply, rd};
use crate::{Edition, Pointer};

// Whether a word is a NOP, which writes nothing.
pub fn is_nop(w: u32) -> bool
    ensures { result ≡ is_nop w }
{
    !is_li(w) && !is_multiply(w) && code(w) == 0
}

// Whether a register is wired to zero, so that a write to it is dropped.
pub fn is_wired(edition: Edition, register: Pointer) -> bool
    ensures { result ≡ is_wired edition register }
{
    match edition {
        Edition::One => false,
        Edition::Two => register.0 == 0,
    }
}

// What a word writes.
#[tactic(auto, unfolding(crate::specs::Operation::target_of))]
pub fn target_of(edition: Edition, w: u32) -> Option<Pointer>
    ensures { result ≡ target_of edition w }
{
    let register = rd(w);
    if is_nop(w) || is_wired(edition, register) {
        return None;
    }
    Some(register)
}
