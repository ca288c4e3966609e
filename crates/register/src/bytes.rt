// Registers and their words from bytes and as bytes, least significant byte first.

ghost use Rattle.std.specs.Prelude.{◌≤◌, ◌≡◌};
ghost use Rattle.register.specs.Layout.{word_of_bytes, word_at, of_bytes, bytes_of};

use crate::Register;

// The word of four bytes, b0 the least significant.
pub fn word_of_bytes(b0: u8, b1: u8, b2: u8, b3: u8) -> u32
    ensures { result ≡ word_of_bytes b0 b1 b2 b3 }
{
    u32::from_le_bytes([b0, b1, b2, b3])
}

// The word from byte i on.
fn word_at(b: [u8; 16], i: usize) -> u32
    requires { i ≤ 12 }
    ensures { result ≡ word_at b i }
{
    word_of_bytes(b[i], b[i + 1], b[i + 2], b[i + 3])
}

impl From<[u8; 16]> for Register {
    ghost from_gives = { λ b r. r ≡ of_bytes b };

    fn from(b: [u8; 16]) -> Register {
        Register {
            w0: word_at(b, 0),
            w1: word_at(b, 4),
            w2: word_at(b, 8),
            w3: word_at(b, 12),
        }
    }
}

impl From<Register> for [u8; 16] {
    ghost from_gives = { λ r b. b ≡ bytes_of r };

    fn from(r: Register) -> [u8; 16] {
        let [a0, a1, a2, a3] = r.w0.to_le_bytes();
        let [b0, b1, b2, b3] = r.w1.to_le_bytes();
        let [c0, c1, c2, c3] = r.w2.to_le_bytes();
        let [d0, d1, d2, d3] = r.w3.to_le_bytes();
        [
            a0, a1, a2, a3, b0, b1, b2, b3, c0, c1, c2, c3, d0, d1, d2, d3,
        ]
    }
}
