// The fields of an instruction word. Only bits 24 to 0 are looked at.

ghost use Rattle.std.specs.Prelude.{◌≡◌, ◌<◌, ◌/◌, ◌%◌, ◌^◌, eqb};
ghost use Rattle.table.specs.Fields.{is_li, is_multiply, is_long, is_subtract, is_high, index_of, immediate_of, code_of, constant_of};
ghost use Rattle.table.specs.Fields.{rd_of, rs1_of, rs2_of, rs3_of, first_of};

use crate::Pointer;

// Whether the bit of this weight is 1.
fn is_set(w: u32, weight: u32) -> bool
    requires { 0 < weight }
    ensures { result ≡ eqb (w / weight % 2) 1 }
{
    w / weight % 2 == 1
}

// The register that the five bits from this weight on name.
fn pointer_at(w: u32, weight: u32) -> Pointer
    requires { 0 < weight }
    ensures { (result ≡ record { 0 = w / weight % 2 ^ 5 }) × (result.0 < 32) }
{
    Pointer((w / weight % 32) as u8)
}

// Bit 24 is 0.
pub fn is_li(w: u32) -> bool
    ensures { result ≡ is_li w }
{
    !is_set(w, 0x100_0000)
}

// Bits 24..23 are 10.
pub fn is_multiply(w: u32) -> bool
    ensures { result ≡ is_multiply w }
{
    w / 0x80_0000 % 4 == 2
}

// Bit 22, of the multiply family.
pub fn is_long(w: u32) -> bool
    ensures { result ≡ is_long w }
{
    is_set(w, 0x40_0000)
}

// Bit 21, of the multiply family.
pub fn is_subtract(w: u32) -> bool
    ensures { result ≡ is_subtract w }
{
    is_set(w, 0x20_0000)
}

// Bit 20, of the multiply family.
pub fn is_high(w: u32) -> bool
    ensures { result ≡ is_high w }
{
    is_set(w, 0x10_0000)
}

// Bits 23..21, of li: the halfword that is set.
pub fn index(w: u32) -> usize
    ensures { (result ≡ index_of w) × (result < 8) }
{
    (w / 0x20_0000 % 8) as usize
}

// Bits 20..5, of li: what it is set to.
pub fn immediate(w: u32) -> u16
    ensures { result ≡ immediate_of w }
{
    (w / 0x20 % 0x1_0000) as u16
}

// Bits 18..15, of a short code: which of the sixteen.
pub fn code(w: u32) -> u32
    ensures { (result ≡ code_of w) × (result < 16) }
{
    w / 0x8000 % 16
}

// Bits 14..10 as a number: the immediate of SHRHI and MLHCU.
pub fn constant(w: u32) -> u32
    ensures { (result ≡ constant_of w) × (result < 32) }
{
    w / 0x400 % 32
}

// Bits 4..0.
pub fn rd(w: u32) -> Pointer
    ensures { (result ≡ rd_of w) × (result.0 < 32) }
{
    pointer_at(w, 1)
}

// Bits 9..5.
pub fn rs1(w: u32) -> Pointer
    ensures { (result ≡ rs1_of w) × (result.0 < 32) }
{
    pointer_at(w, 0x20)
}

// Bits 14..10.
pub fn rs2(w: u32) -> Pointer
    ensures { (result ≡ rs2_of w) × (result.0 < 32) }
{
    pointer_at(w, 0x400)
}

// Bits 19..15, of the multiply family.
pub fn rs3(w: u32) -> Pointer
    ensures { (result ≡ rs3_of w) × (result.0 < 32) }
{
    pointer_at(w, 0x8000)
}

// The register of the first operand: li's is its own rd.
pub fn first(w: u32) -> Pointer
    ensures { (result ≡ first_of w) × (result.0 < 32) }
{
    if is_li(w) { rd(w) } else { rs1(w) }
}
