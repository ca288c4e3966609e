// Which fields of a word name registers that it reads.

ghost use Rattle.std.specs.Prelude.{◌≡◌, ◌<◌, get_or};
ghost use Rattle.table.specs.Operation.{operation_of, reads_of, short_rows};
ghost use Rattle.table.specs.Operation.Operation.{nop};

use crate::Reads;
use crate::fields::{code, is_li, is_multiply};

// By the short code, as the table's "reads" column has it.
const READS: [Reads; 16] = [
    Reads::Nothing, // NOP
    Reads::Rs1, // SHRHI
    Reads::Rs1Rs2, // AU
    Reads::Rs1, // CNTIH
    Reads::Rs1Rs2, // AHS
    Reads::Rs1Rs2, // OR
    Reads::Rs1, // BCW
    Reads::Rs1Rs2, // MAXWS
    Reads::Rs1Rs2, // MINWS
    Reads::Rs1Rs2, // MLHU
    Reads::Rs1, // MLHCU
    Reads::Rs1Rs2, // AND
    Reads::Rs1, // CLZW
    Reads::Rs1Rs2, // ROTW
    Reads::Rs1Rs2, // SFWU
    Reads::Rs1Rs2, // SFHS
];

fn short_reads(code: usize) -> Reads
    requires { code < 16 }
    ensures { result ≡ reads_of (get_or short_rows code nop) }
{
    READS[code]
}

// What a word reads.
pub fn reads(w: u32) -> Reads
    ensures { result ≡ reads_of (operation_of w) }
{
    if is_li(w) {
        return Reads::Rd;
    }
    if is_multiply(w) {
        return Reads::Rs1Rs2Rs3;
    }
    short_reads(code(w) as usize)
}
