// The writer of program text: the lines of a program's words, one behind another, at the front of a lent buffer.

#![tactic(auto)]

ghost use Rattle.std.specs.Prelude.{◌≤◌, ◌≡◌, length};
ghost use Rattle.table.specs.Refusal.{first_bad};
ghost use Rattle.job_rules.specs.Write.{said_written};
ghost use Rattle.text_rules.specs.Listing.{longest_listing, listing_of, list_of, list_job_of};
ghost use Rattle.text_writer.specs.Put.{Put};

mod decimal;
mod line;
mod name;
mod numbers;

use crate::line::put_line;
use buffer::put_front;
use job_reader::read_job;
use table::refusal::{Refusal, first_bad};
use text_table::Forms;

// The size of the longest listing: a buffer of so many bytes has room for any.
pub const LARGEST: usize = 1216;

// The constant, by a contract.
pub fn largest() -> usize
    ensures { result ≡ longest_listing }
{
    LARGEST
}

// The lines of good words, one behind another. The answer is how many bytes they have.
fn put_lines(out: &mut [u8], words: &[u32]) -> usize
    requires { (length words.now ≤ first_bad words.now) × (length (listing_of words.now) ≤ length out.old) }
    ensures { Put (listing_of words.now) result out.old out.new }
{
    let forms = Forms::table();
    let mut at = 0;
    for w in words {
        let size = put_line(&mut out[at..], &forms, *w);
        at += size;
    }
    at
}

// Writes the listing of a program at the front of the buffer. The answer is its size, or a refusal: 2, 6 or 9, and then the buffer is as it was. So the words are
// first listed beside the buffer, where there is room for any: then the size is known before a byte of the buffer is altered.
pub fn list_program(words: &[u32], buffer: &mut [u8]) -> Result<usize, Refusal>
    ensures { (said_written result, buffer.new) ≡ list_of words.now buffer.old }
{
    if words.len() > 64 {
        return Err(Refusal::Count);
    }
    let bad = first_bad(words);
    if bad < words.len() {
        return Err(Refusal::Word(bad));
    }
    let mut text = [0u8; LARGEST];
    let size = put_lines(&mut text, words);
    if buffer.len() < size {
        return Err(Refusal::Room);
    }
    put_front(buffer, &text[..size]);
    Ok(size)
}

// The same of a job file's program. A file that is refused is answered with why, and then the buffer is as it was.
pub fn list_job(file: &[u8], buffer: &mut [u8]) -> Result<usize, Refusal>
    ensures { (said_written result, buffer.new) ≡ list_job_of file.now buffer.old }
{
    let job = read_job(file)?;
    let words = job.program.words;
    let n = job.program.n.0 as usize;
    list_program(&words[..n], buffer)
}
