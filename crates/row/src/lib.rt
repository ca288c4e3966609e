// The writer of trace rows: each field goes into the part of the lent buffer that is lent on to its writer.

#![tactic(auto)]

ghost use Rattle.std.specs.Prelude.{◌≤◌, ◌≡◌, length};
ghost use Rattle.buffer.specs.Front.{at_front};
ghost use Rattle.table.specs.Refusal.{number_in};
ghost use Rattle.row_rules.specs.Text.{row_size, row_text, row_at};

pub mod digits;
mod fields;
pub mod values;

use crate::fields::{put_begin, put_end};
use buffer::has_room;
use row_rules::Row;
use table::refusal::Refusal;

// The bytes of a row.
pub const ROW_SIZE: usize = 78;

fn put_row(out: &mut [u8], row: Row)
    requires { row_size ≤ length out.old }
    ensures { out.new ≡ at_front (row_text row) out.old }
{
    put_begin(out, row);
    put_end(&mut out[34..], row);
}

// Writes a row into the buffer from `start` on, its 78 bytes and no others. Refused with 9 where there are fewer, and then the buffer is as it was.
pub fn write_row(buffer: &mut [u8], start: usize, row: Row) -> Result<(), Refusal>
    ensures { (number_in result, buffer.new) ≡ row_at row start buffer.old }
{
    if !has_room(buffer.len(), start, ROW_SIZE) {
        return Err(Refusal::Room);
    }
    put_row(&mut buffer[start..], row);
    Ok(())
}
