// Marks: a bit for each halfword of a register, two for each word.

ghost use Rattle.std.specs.Prelude.{◌+◌, ◌*◌, ◌<◌, ◌≡◌, cond};
ghost use Rattle.register.specs.Halves.{join};
ghost use Rattle.alu_rules.specs.Across.{of_longs, word_bits, bits_of_lanes};

// The bits of a word, from whether its halfwords are marked.
pub(crate) fn bits_of_halfwords(hi: bool, lo: bool) -> u32
    ensures { (result ≡ word_bits (join 16 (cond hi 1 0) (cond lo 1 0))) × (result < 4) }
{
    u32::from(lo) + 2 * u32::from(hi)
}

// The mark of a register, from the bits of its words.
pub(crate) fn mark_of(w0: u32, w1: u32, w2: u32, w3: u32) -> u8
    requires { (w0 < 4) × (w1 < 4) × (w2 < 4) × (w3 < 4) }
    ensures { result ≡ w0 + 4 * w1 + 16 * w2 + 64 * w3 }
{
    (w0 + 4 * w1 + 16 * w2 + 64 * w3) as u8
}

// From whether its words are marked, and from whether its longs are.
pub(crate) fn mark_of_words(w0: bool, w1: bool, w2: bool, w3: bool) -> u8
    ensures { result ≡ bits_of_lanes (record { w0 = cond w0 1 0; w1 = cond w1 1 0; w2 = cond w2 1 0; w3 = cond w3 1 0 }) }
{
    mark_of(u32::from(w0), u32::from(w1), u32::from(w2), u32::from(w3))
}

pub(crate) fn mark_of_longs(l0: bool, l1: bool) -> u8
    ensures { result ≡ bits_of_lanes (of_longs (cond l1 1 0) (cond l0 1 0)) }
{
    mark_of(u32::from(l0), 0, u32::from(l1), 0)
}
