// A job's whole text, as the program `trace` prints it: by value, or in a lent buffer.

#![tactic(auto)]

ghost use Rattle.std.specs.Prelude.{◌≡◌, true};
ghost use Rattle.table.specs.Refusal.{number_of};
ghost use Rattle.unit_rules.specs.Record.{well_made_of};
ghost use Rattle.trace_rules.specs.JobText.{refused_text, trace_text, said_put, put_of, write_text_of, whole_text_of};

mod lines;
mod rows;

use crate::lines::{put_end, put_refused, refused_size};
use crate::rows::put_rows;
use buffer::has_room;
use row::ROW_SIZE;
use table::refusal::Refusal;
use trace_rules::{LARGEST_TEXT, WholeText};
use unit_record::numbers::last;
use unit_rules::Unit;

// The bytes of a line of END.
const END_SIZE: usize = 7;

fn refused(out: &mut [u8], why: Refusal) -> Result<usize, Refusal>
    ensures { (said_put result, out.new) ≡ put_of (refused_text (number_of why)) out.old }
{
    let number = why.number();
    let size = refused_size(number);
    if !has_room(out.len(), 0, size) {
        return Err(Refusal::Room);
    }
    put_refused(out, number);
    Ok(size)
}

fn trace(out: &mut [u8], u: Unit) -> Result<usize, Refusal>
    requires { (well_made_of u ≡ true) × (u.gone ≡ true) }
    ensures { (said_put result, out.new) ≡ put_of (trace_text u) out.old }
{
    let cycles = last(u.program.n) - u.cycle;
    let end = ROW_SIZE * cycles as usize;
    if !has_room(out.len(), end, END_SIZE) {
        return Err(Refusal::Room);
    }
    put_rows(out, u, cycles);
    put_end(&mut out[end..], cycles);
    Ok(end + END_SIZE)
}

// Writes the whole text of a job file at the front of the buffer: its rows and END, or REFUSED. Refused with 9 where the text does not fit, and then the buffer
// is as it was.
pub fn write_text(file: &[u8], out: &mut [u8]) -> Result<usize, Refusal>
    ensures { (said_put result, out.new) ≡ write_text_of file.now out.old }
{
    let loaded = unit::load(unit::fresh(), file);
    if let Err(why) = loaded.answer {
        return refused(out, why);
    }
    let gone = unit::go(loaded.unit);
    trace(out, gone.unit)
}

// The whole text of a job file by value: there is room for every text.
pub fn whole_text(file: &[u8]) -> WholeText
    ensures { result ≡ whole_text_of file.now }
{
    let mut bytes = [0u8; LARGEST_TEXT];
    let size = write_text(file, &mut bytes).unwrap_or(0);
    WholeText { bytes, size }
}
