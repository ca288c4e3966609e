// A register of 128 bits, made from and given back as bytes and rows.

#![tactic(auto)]

ghost use Rattle.std.specs.Prelude.{◌≡◌};
ghost use Rattle.register.specs.Layout.{zero_register, is_zero, row_of, of_row, bytes_of, of_bytes, with_halfword};

pub mod bytes;
pub mod halves;
mod rows;

use halves::put_half;

// w0 has bits 31 to 0, w3 bits 127 to 96.
#[derive(Clone, Copy, PartialEq, Eq)]
pub struct Register {
    pub w0: u32,
    pub w1: u32,
    pub w2: u32,
    pub w3: u32,
}

impl Register {
    // The register of 128 zero bits.
    pub const ZERO: Register = Register {
        w0: 0,
        w1: 0,
        w2: 0,
        w3: 0,
    };

    // The constant, by a contract.
    pub fn zeroed() -> Register
        ensures { result ≡ zero_register }
    {
        Register::ZERO
    }

    // Whether it is that.
    pub fn is_zero(self) -> bool
        ensures { result ≡ is_zero self }
    {
        self == Register::ZERO
    }

    // From 16 bytes, least significant first.
    pub fn from_bytes(b: [u8; 16]) -> Register
        ensures { result ≡ of_bytes b }
    {
        Register::from(b)
    }

    // As 16 bytes, least significant first.
    pub fn to_bytes(self) -> [u8; 16]
        ensures { result ≡ bytes_of self }
    {
        self.into()
    }

    // From a row of four words, word 0 first.
    pub fn from_row(row: [u32; 4]) -> Register
        ensures { result ≡ of_row row }
    {
        Register::from(row)
    }

    // As a row of four words, word 0 first.
    pub fn to_row(self) -> [u32; 4]
        ensures { result ≡ row_of self }
    {
        self.into()
    }

    // With halfword i set to v; beyond halfword 7 there is nothing to set.
    pub fn with_halfword(self, i: usize, v: u16) -> Register
        ensures { result ≡ with_halfword i v self }
    {
        Register {
            w0: put_half(self.w0, 0, i, v),
            w1: put_half(self.w1, 2, i, v),
            w2: put_half(self.w2, 4, i, v),
            w3: put_half(self.w3, 6, i, v),
        }
    }
}
