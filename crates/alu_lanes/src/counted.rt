// CNTIH and CLZW: counts of a word's bits.

ghost use Rattle.std.specs.Prelude.{◌≡◌};
ghost use Rattle.alu_rules.specs.Lane.{CNTIH, CLZW};

use crate::ones::in_sixteens;

// CNTIH: of both halfwords of a word.
#[tactic(auto, using(alu_rules::proofs::Ones::last_step))]
pub fn ones_in_halfwords(w: u32) -> u32
    ensures { result ≡ CNTIH w }
{
    in_sixteens(w)
}

// CLZW.
pub fn leading_zeros(w: u32) -> u32
    ensures { result ≡ CLZW w }
{
    w.leading_zeros()
}
