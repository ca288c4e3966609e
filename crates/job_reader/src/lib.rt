// The reader of job files: by what the header says, the words and the registers behind it.

#![tactic(auto)]

ghost use Rattle.std.specs.Prelude.{◌+◌, ◌*◌, ◌≤◌, ◌≡◌, length, get_or, drop};
ghost use Rattle.register.specs.Layout.{zero_register};
ghost use Rattle.job_rules.specs.Layout.{bytes_to_read, size_of, words_in, registers_of};
ghost use Rattle.job_rules.specs.Read.{filled, said_read, body_of, read_of};

pub mod header;
mod numbers;
pub mod told;

use crate::header::read_header;
use crate::numbers::{register_at, word_at};
use job_layout::{instructions_at, may_hold};
use job_rules::{Counts, Job, Program};
use register::Register;
use table::refusal::{Refusal, first_bad};

// So many bytes of a file decide what is read of it: a program need not read more of any input.
pub const BYTES_TO_READ: usize = 781;

// The constant, by a contract.
pub fn bytes_to_read() -> usize
    ensures { result ≡ bytes_to_read }
{
    BYTES_TO_READ
}

// The words that a file has, and below the registers. One function for both would ask for a trait of their size, zero and reading, which is no plainer.
fn read_words(l: &[u8], at: usize, n: usize) -> [u32; 64]
    requires { (n ≤ 64) × (at + 4 * n ≤ length l.now) }
    ensures { result ≡ filled 64 0 (words_in n (drop at l.now)) }
{
    let mut words = [0u32; 64];
    for i in 0..n {
        words[i] = word_at(l, at + 4 * i);
    }
    words
}

fn read_registers(l: &[u8], at: usize, r: usize) -> [Register; 32]
    requires { (r ≤ 32) × (at + 16 * r ≤ length l.now) }
    ensures { result ≡ filled 32 zero_register (registers_of r (drop at l.now)) }
{
    let mut registers = [Register::ZERO; 32];
    for i in 0..r {
        registers[i] = register_at(l, at + 16 * i);
    }
    registers
}

// Register 0 of a file, zero where it has none. It is tested before the others are read: what is read is moved once then.
fn first_register(l: &[u8], at: usize, r: usize) -> Register
    requires { at + 16 * r ≤ length l.now }
    ensures { result ≡ get_or (registers_of r (drop at l.now)) 0 zero_register }
{
    if r == 0 {
        return Register::ZERO;
    }
    register_at(l, at)
}

// What is behind counts that fit the file.
fn read_body(l: &[u8], counts: Counts) -> Result<Job, Refusal>
    requires { (counts.n.0 ≤ 64) × (counts.r ≤ 32) × (size_of counts.edition counts.n.0 counts.r ≤ length l.now) }
    ensures { said_read result ≡ body_of counts.edition l.now counts.n.0 counts.r }
{
    let Counts { edition, n, r } = counts;
    let at = instructions_at(edition);
    let lines = n.0 as usize;
    let words = read_words(l, at, lines);
    let bad = first_bad(&words[..lines]);
    if bad < lines {
        return Err(Refusal::Word(bad));
    }
    let from = at + 4 * lines;
    if !may_hold(edition, first_register(l, from, r)) {
        return Err(Refusal::Nonzero);
    }
    let registers = read_registers(l, from, r);
    let program = Program { words, n, edition };
    Ok(Job {
        program,
        registers,
        r,
    })
}

// Reads a job file: the job, or why the file is refused, 1 to 6, 14 or 15, the first that holds. A refusal of the header leaves at once, by `let .. else`; the counts
// go on.
pub fn read_job(file: &[u8]) -> Result<Job, Refusal>
    ensures { said_read result ≡ read_of file.now }
{
    let header = read_header(file);
    let Ok(counts) = header else {
        return Err(header.unwrap_err());
    };
    read_body(file, counts)
}
