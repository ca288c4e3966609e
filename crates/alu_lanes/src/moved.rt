// SHRHI and ROTW: bits moved to the right. Both reduce the number of places themselves, so they take any number.

ghost use Rattle.std.specs.Prelude.{◌≡◌};
ghost use Rattle.alu_rules.specs.Lane.{SHRHI, ROTW};

// SHRHI: both halfwords of a word.
pub fn shift_halfwords_right(w: u32, by: u32) -> u32
    ensures { result ≡ SHRHI w by }
{
    let places = by % 16;
    ((w / 0x1_0000) >> places) * 0x1_0000 + ((w % 0x1_0000) >> places)
}

// ROTW: what leaves on the right comes in on the left.
#[tactic(auto, using(crate::proofs::Words::rotated_by_shifts))]
pub fn rotate_right(w: u32, by: u32) -> u32
    ensures { result ≡ ROTW w by }
{
    w.rotate_right(by)
}
