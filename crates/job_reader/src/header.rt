// The header of a job file: its numbers, each of two bytes, least significant byte first, and their tests.

ghost use Rattle.std.specs.Prelude.{◌+◌, ◌≤◌, cond, ◌≡◌, eqb, length};
ghost use Rattle.table.specs.declared.Edition.TheVariants.{One, Two};
ghost use Rattle.job_rules.specs.Layout.{instructions_at, two_at, edition_in, says_edition};
ghost use Rattle.job_rules.specs.Read.{tested_of, header_of};

use job_layout::instructions_at;
use job_rules::Counts;
use table::refusal::Refusal;
use table::{Count, Edition};

fn two_at(l: &[u8], at: usize) -> usize
    requires { at + 2 ≤ length l.now }
    ensures { result ≡ two_at l.now at }
{
    usize::from(u16::from_le_bytes([l[at], l[at + 1]]))
}

// The edition that a first offset stands for. One that stands for neither is tested against the first edition's.
fn edition_of(first: usize) -> Edition
    ensures { result ≡ cond (eqb first (instructions_at Two)) Two One }
{
    if first == instructions_at(Edition::Two) {
        Edition::Two
    } else {
        Edition::One
    }
}

// Whether the bytes behind the four numbers say the edition too; the first has no such bytes.
fn says_edition(l: &[u8], edition: Edition) -> bool
    requires { instructions_at edition ≤ length l.now }
    ensures { result ≡ says_edition edition l.now }
{
    match edition {
        Edition::One => true,
        Edition::Two => two_at(l, 8) == 2 && two_at(l, 10) == 0,
    }
}

// The tests of a header that is there: 2, 3, the first offset's 4, 1 for a header that is longer, 14, the second offset's 4, and 5.
fn tested(
    l: &[u8],
    edition: Edition,
    n: usize,
    r: usize,
    first: usize,
    second: usize,
) -> Result<Counts, Refusal>
    requires { 8 ≤ length l.now }
    ensures { result ≡ tested_of edition n r first (says_edition edition l.now) second (length l.now) }
{
    let at = instructions_at(edition);
    if n > 64 {
        return Err(Refusal::Count);
    }
    if r > 32 {
        return Err(Refusal::Regs);
    }
    if first != at {
        return Err(Refusal::Place);
    }
    if l.len() < at {
        return Err(Refusal::Short);
    }
    if !says_edition(l, edition) {
        return Err(Refusal::Edition);
    }
    if second != at + 4 * n {
        return Err(Refusal::Place);
    }
    if l.len() != at + 4 * n + 16 * r {
        return Err(Refusal::Length);
    }
    Ok(Counts {
        edition,
        n: Count(n as u8),
        r,
    })
}

// The header of a file: its edition and how many words and registers follow, or the refusal, 1 to 5 or 14.
pub fn read_header(file: &[u8]) -> Result<Counts, Refusal>
    ensures { result ≡ header_of (edition_in file.now) file.now }
{
    if file.len() < 8 {
        return Err(Refusal::Short);
    }
    let n = two_at(file, 0);
    let r = two_at(file, 2);
    let first = two_at(file, 4);
    let second = two_at(file, 6);
    tested(file, edition_of(first), n, r, first, second)
}
