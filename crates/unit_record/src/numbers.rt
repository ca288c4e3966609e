// The numbers of a unit's record: the cycle at which a program is drained, and whether a program, the count and the cycle number are well made.

ghost use Rattle.std.specs.Prelude.{min, ◌≡◌};
ghost use Rattle.table.specs.declared.Edition.TheVariants.{One};
ghost use Rattle.unit_rules.specs.Record.{last_of, program_made, numbers_made};

use table::{Count, refusal};

// The cycle number at which a program of n lines is drained.
pub fn last(n: Count) -> u32
    ensures { result ≡ last_of n.0 }
{
    if n.0 == 0 {
        return 0;
    }
    n.0 as u32 + 3
}

// How many of a program's n lines have been fetched by cycle c.
pub fn count_at(n: Count, c: u32) -> Count
    ensures { result ≡ record { 0 = min c n.0 } }
{
    if c < n.0 as u32 {
        return Count(c as u8);
    }
    n
}

// Whether n and the words, of which there may be any number, are those of a well-made record. The edition has no part in it: in the contract the first stands for either.
#[tactic(auto, using(crate::proofs::RecordNumbers::too_few_words))]
pub fn program_made(words: &[u32], n: Count) -> bool
    ensures { result ≡ program_made (record { words = words.entry.now; n = n; edition = One }) }
{
    let lines = n.0 as usize;
    if words.len() < lines {
        return false;
    }
    lines <= 64 && refusal::first_bad(&words[..lines]) >= lines
}

// Whether the cycle number and the count are those of a unit that has gone, with a program of n lines.
pub fn numbers_made(n: Count, count: Count, cycle: u32) -> bool
    ensures { result ≡ numbers_made n.0 count.0 cycle }
{
    cycle <= last(n) && count == count_at(n, cycle)
}
