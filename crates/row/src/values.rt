// Words and registers by value, in the digits that a row shows them in.

ghost use Rattle.std.specs.Prelude.{◌≡◌};
ghost use Rattle.row_rules.specs.Text.{hex_digits, register_text};

use crate::digits::put_hex;
use crate::fields::put_register;
use register::Register;

// An instruction's word in seven hex digits. A const parameter for this and the next would need a law that nothing else needs.
pub fn word_text(w: u32) -> [u8; 7]
    ensures { result ≡ hex_digits 7 w }
{
    let mut text = [0u8; 7];
    put_hex(&mut text, 7, w);
    text
}

// A word of a register in eight hex digits.
pub fn register_word_text(w: u32) -> [u8; 8]
    ensures { result ≡ hex_digits 8 w }
{
    let mut text = [0u8; 8];
    put_hex(&mut text, 8, w);
    text
}

// A register in 32 hex digits, word 3 leftmost.
pub fn register_text(v: Register) -> [u8; 32]
    ensures { result ≡ register_text v }
{
    let mut text = [0u8; 32];
    put_register(&mut text, v);
    text
}
