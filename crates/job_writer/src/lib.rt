// The writer of job files: where its tests refuse nothing, header, words and register bytes, each into its own part of the buffer.

#![tactic(auto)]

ghost use Rattle.std.specs.Prelude.{◌+◌, ◌*◌, ◌≤◌, ◌≡◌, length};
ghost use mathlib.Core.List.{flat_map};
ghost use Rattle.buffer.specs.Front.{at_front};
ghost use Rattle.job_rules.specs.Layout.{instructions_at, LARGEST as largest_job, four_bytes, edition_bytes, header_bytes, encode};
ghost use Rattle.job_rules.specs.Write.{said_written, write_of};

mod numbers;
pub mod registers;
pub mod tests;
pub mod told;

use crate::numbers::{put_four, put_pair};
use crate::tests::size_or_refusal;
use buffer::put_front;
use job_layout::instructions_at;
use table::Edition;
use table::refusal::Refusal;

// The size of a job of 64 words and 32 registers in the second edition: a buffer of so many bytes has room for any job.
pub const LARGEST: usize = 780;

// The constant, by a contract.
pub fn largest() -> usize
    ensures { result ≡ largest_job }
{
    LARGEST
}

fn put_edition(out: &mut [u8], edition: Edition)
    requires { instructions_at edition ≤ 8 + length out.old }
    ensures { out.new ≡ at_front (edition_bytes edition) out.old }
{
    match edition {
        Edition::One => {}
        Edition::Two => put_pair(out, 2, 0),
    }
}

fn put_header(out: &mut [u8], edition: Edition, n: usize, r: usize)
    requires { (8 ≤ length out.old) × (instructions_at edition ≤ length out.old) × (n ≤ 64) × (r ≤ 32) }
    ensures { out.new ≡ at_front (header_bytes edition n r) out.old }
{
    let at = instructions_at(edition);
    put_pair(out, n as u16, r as u16);
    put_pair(&mut out[4..], at as u16, (at + 4 * n) as u16);
    put_edition(&mut out[8..], edition);
}

// The words, as `registers::put_registers` the registers: a trait of their size and their bytes for one function would be no plainer than two loops.
fn put_words(out: &mut [u8], words: &[u32])
    requires { 4 * length words.now ≤ length out.old }
    ensures { out.new ≡ at_front (flat_map four_bytes words.now) out.old }
{
    for (i, word) in words.iter().enumerate() {
        put_four(&mut out[4 * i..], *word);
    }
}

fn put_job(out: &mut [u8], edition: Edition, words: &[u32], registers: &[u8])
    requires { (length words.now ≤ 64) × (length registers.now ≤ 512) × (instructions_at edition + 4 * length words.now + length registers.now ≤ length out.old) }
    ensures { out.new ≡ at_front (encode edition words.now registers.now) out.old }
{
    let at = instructions_at(edition);
    let n = words.len();
    let r = registers.len() / 16;
    put_header(out, edition, n, r);
    put_words(&mut out[at..], words);
    let behind = at + 4 * n;
    put_front(&mut out[behind..], registers);
}

// Writes a job of this edition at the front of the buffer. The words are its instructions, the register bytes those of registers 0, 1, 2 .. one after another,
// 16 each. The answer is the size of the file, or a refusal: 2, 3, 6, 15 or 9, and then the buffer is as it was.
pub fn write_job(
    edition: Edition,
    words: &[u32],
    registers: &[u8],
    out: &mut [u8],
) -> Result<usize, Refusal>
    ensures { (said_written result, out.new) ≡ write_of edition words.now registers.now out.old }
{
    let size = size_or_refusal(edition, words, registers, out.len())?;
    put_job(out, edition, words, registers);
    Ok(size)
}
