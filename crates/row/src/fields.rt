// The fields of a row, each at the front of the part of the buffer that it is lent.

ghost use Rattle.std.specs.Prelude.{◌≤◌, ◌≡◌, [], ◌++◌, length};
ghost use Rattle.buffer.specs.Front.{at_front};
ghost use Rattle.row_rules.specs.Text.{two_digits, hex_digits, stage_text, flag_text, flags_text, number_text, register_text, value_text, mark_text, behind_space, newline};

use crate::digits::{put_hex, put_hyphens, put_two};
use register::Register;
use row_rules::{Change, Flags, Row, Stage};

fn put_word(out: &mut [u8], stage: Stage)
    requires { 7 ≤ length out.old }
    ensures { out.new ≡ at_front (stage_text stage) out.old }
{
    match stage {
        None => put_hyphens(out, 7),
        Some(w) => put_hex(out, 7, w),
    }
}

fn put_two_stages(out: &mut [u8], first: Stage, second: Stage)
    requires { 16 ≤ length out.old }
    ensures { out.new ≡ at_front (behind_space (stage_text first) ++ behind_space (stage_text second)) out.old }
{
    put_word(&mut out[1..], first);
    put_word(&mut out[9..], second);
    out[8] = b' ';
    out[0] = b' ';
}

pub(crate) fn put_begin(out: &mut [u8], row: Row)
    requires { 34 ≤ length out.old }
    ensures { out.new ≡ at_front (two_digits row.cycle ++ (behind_space (stage_text row.fetch) ++ behind_space (stage_text row.decode)) ++ (behind_space (stage_text row.execute) ++ behind_space (stage_text row.write))) out.old }
{
    put_two(out, row.cycle);
    put_two_stages(&mut out[2..], row.fetch, row.decode);
    put_two_stages(&mut out[18..], row.execute, row.write);
}

fn flag(raised: bool) -> u8
    ensures { result ≡ flag_text raised }
{
    if raised { b'1' } else { b'0' }
}

// The flags between two spaces.
fn put_flags(out: &mut [u8], flags: Flags)
    requires { 5 ≤ length out.old }
    ensures { out.new ≡ at_front (behind_space (flags_text flags) ++ behind_space []) out.old }
{
    out[0] = b' ';
    out[1] = flag(flags.rs1);
    out[2] = flag(flags.rs2);
    out[3] = flag(flags.rs3);
    out[4] = b' ';
}

fn put_number(out: &mut [u8], change: Change)
    requires { 2 ≤ length out.old }
    ensures { out.new ≡ at_front (number_text change) out.old }
{
    match change {
        None => put_hyphens(out, 2),
        Some((p, _)) => put_two(out, p.0 as u32),
    }
}

fn put_two_words(out: &mut [u8], left: u32, right: u32)
    requires { 16 ≤ length out.old }
    ensures { out.new ≡ at_front (hex_digits 8 left ++ hex_digits 8 right) out.old }
{
    put_hex(out, 8, left);
    put_hex(&mut out[8..], 8, right);
}

pub(crate) fn put_register(out: &mut [u8], v: Register)
    requires { 32 ≤ length out.old }
    ensures { out.new ≡ at_front (register_text v) out.old }
{
    put_two_words(out, v.w3, v.w2);
    put_two_words(&mut out[16..], v.w1, v.w0);
}

fn put_value(out: &mut [u8], change: Change)
    requires { 32 ≤ length out.old }
    ensures { out.new ≡ at_front (value_text change) out.old }
{
    match change {
        None => put_hyphens(out, 32),
        Some((_, o)) => put_register(out, o.value),
    }
}

fn put_mark(out: &mut [u8], change: Change)
    requires { 2 ≤ length out.old }
    ensures { out.new ≡ at_front (mark_text change) out.old }
{
    match change {
        None => put_hyphens(out, 2),
        Some((_, o)) => put_hex(out, 2, o.mark as u32),
    }
}

pub(crate) fn put_end(out: &mut [u8], row: Row)
    requires { 44 ≤ length out.old }
    ensures { out.new ≡ at_front (behind_space (flags_text row.flags) ++ behind_space (number_text row.change) ++ behind_space (value_text row.change) ++ behind_space (mark_text row.change) ++ newline) out.old }
{
    put_flags(out, row.flags);
    put_number(&mut out[5..], row.change);
    put_value(&mut out[8..], row.change);
    put_mark(&mut out[41..], row.change);
    out[7] = b' ';
    out[40] = b' ';
    out[43] = b'\n';
}
