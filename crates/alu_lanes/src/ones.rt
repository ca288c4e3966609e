// The ones of a word in the card's order of work: pair sums, then sums of four, of eight and of sixteen bits, all fields of the word side by side. The function of a step
// takes the word that is counted, and makes the step before it first.

ghost use Rattle.std.specs.Prelude.{◌≡◌, ◌+◌, ◌/◌, ◌^◌, ◌<◌, bit_and};
ghost use Rattle.alu_rules.specs.Ones.{ones_in_fields, ones_by_step};

// What a step does to a word: in every field of 2k bits the upper k are added to the lower k. The mask has the lower k of each, so that nothing else comes into a sum.
fn add_halves(x: u32, k: u32, mask: u32) -> u32
    requires { (k < 32) × (mask + mask < 2 ^ 32) }
    ensures { result ≡ bit_and x mask + bit_and (x / 2 ^ k) mask }
{
    (x & mask) + ((x >> k) & mask)
}

// The step for k = 1: pair sums.
fn in_pairs(w: u32) -> u32
    ensures { result ≡ ones_in_fields 2 w }
{
    add_halves(w, 1, 0x5555_5555)
}

// The step for k = 2: sums of four bits.
fn in_fours(w: u32) -> u32
    ensures { result ≡ ones_in_fields 4 w }
{
    add_halves(in_pairs(w), 2, 0x3333_3333)
}

// The step for k = 4: sums of eight bits.
fn in_eights(w: u32) -> u32
    ensures { result ≡ ones_in_fields 8 w }
{
    add_halves(in_fours(w), 4, 0x0F0F_0F0F)
}

// The step for k = 8: sums of sixteen bits, two to a word.
pub(crate) fn in_sixteens(w: u32) -> u32
    ensures { result ≡ ones_in_fields 16 w }
{
    add_halves(in_eights(w), 8, 0x00FF_00FF)
}

// What stands there after each step, in their order.
pub fn by_step(w: u32) -> [u32; 4]
    ensures { result ≡ ones_by_step w }
{
    [in_pairs(w), in_fours(w), in_eights(w), in_sixteens(w)]
}
