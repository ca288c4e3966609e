// The published instruction table: the fields of a word, what it reads and what it writes.

#![tactic(auto)]

pub mod fields;
pub mod operands;
pub mod refusal;
pub mod writes;

// A register's number, 0 to 31.
#[derive(Clone, Copy, PartialEq, Eq)]
pub struct Pointer(pub u8);

// A number of program lines, 0 to 64.
#[derive(Clone, Copy, PartialEq, Eq, PartialOrd, Ord)]
pub struct Count(pub u8);

// Which fields of a word name registers that it reads: the entries of the table's "reads" column, the multiply family's and li's.
#[derive(Clone, Copy, PartialEq, Eq)]
pub enum Reads {
    // none: NOP
    Nothing,
    // rs1 alone
    Rs1,
    // rs1 and rs2
    Rs1Rs2,
    // all three: the multiply family
    Rs1Rs2Rs3,
    // rd, the old value of li
    Rd,
}

// The edition of a card: boards of both run side by side.
#[derive(Clone, Copy, PartialEq, Eq)]
pub enum Edition {
    // all registers can be written
    One,
    // register 0 is wired to zero
    Two,
}
