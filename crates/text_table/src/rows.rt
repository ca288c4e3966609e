// The table of forms of program text.

// An operand: its limit, and the weight of its lowest bit in the word.
#[derive(Clone, Copy)]
pub struct Field {
    pub limit: u32,
    pub weight: u32,
}

// A form: its name as a number, the bytes behind a 1, so that a name is found by one comparison a row; the base of its digits, with which they are reckoned; the word with every operand zero; and its operands, four at most, in the order in which they are written.
#[derive(Clone, Copy)]
pub struct Row {
    pub key: u64,
    pub base: u32,
    pub word: u32,
    pub operands: [Option<Field>; 4],
}

const RD: Option<Field> = Some(Field {
    limit: 32,
    weight: 0x1,
});

const RS1: Option<Field> = Some(Field {
    limit: 32,
    weight: 0x20,
});

const RS2: Option<Field> = Some(Field {
    limit: 32,
    weight: 0x400,
});

const RS3: Option<Field> = Some(Field {
    limit: 32,
    weight: 0x8000,
});

const INDEX: Option<Field> = Some(Field {
    limit: 8,
    weight: 0x20_0000,
});

const IMMEDIATE: Option<Field> = Some(Field {
    limit: 65536,
    weight: 0x20,
});

// How far SHRHI shifts.
const PLACES: Option<Field> = Some(Field {
    limit: 16,
    weight: 0x400,
});

const WHOLE: Option<Field> = Some(Field {
    limit: 0x200_0000,
    weight: 0x1,
});

#[rattlefmt::skip]
pub(crate) const FORMS: [Row; 26] = [
    Row { key: 0x16C69,         base: 10, word: 0x000_0000, operands: [RD, INDEX, IMMEDIATE, None] }, // li
    Row { key: 0x173696D616C73, base: 10, word: 0x100_0000, operands: [RD, RS1, RS2, RS3] }, // simals
    Row { key: 0x173696D616873, base: 10, word: 0x110_0000, operands: [RD, RS1, RS2, RS3] }, // simahs
    Row { key: 0x173696D736C73, base: 10, word: 0x120_0000, operands: [RD, RS1, RS2, RS3] }, // simsls
    Row { key: 0x173696D736873, base: 10, word: 0x130_0000, operands: [RD, RS1, RS2, RS3] }, // simshs
    Row { key: 0x1736C6D616C73, base: 10, word: 0x140_0000, operands: [RD, RS1, RS2, RS3] }, // slmals
    Row { key: 0x1736C6D616873, base: 10, word: 0x150_0000, operands: [RD, RS1, RS2, RS3] }, // slmahs
    Row { key: 0x1736C6D736C73, base: 10, word: 0x160_0000, operands: [RD, RS1, RS2, RS3] }, // slmsls
    Row { key: 0x1736C6D736873, base: 10, word: 0x170_0000, operands: [RD, RS1, RS2, RS3] }, // slmshs
    Row { key: 0x16E6F70,       base: 10, word: 0x180_0000, operands: [None; 4] }, // nop
    Row { key: 0x17368726869,   base: 10, word: 0x180_8000, operands: [RD, RS1, PLACES, None] }, // shrhi
    Row { key: 0x16175,         base: 10, word: 0x181_0000, operands: [RD, RS1, RS2, None] }, // au
    Row { key: 0x1636E746968,   base: 10, word: 0x181_8000, operands: [RD, RS1, None, None] }, // cntih
    Row { key: 0x1616873,       base: 10, word: 0x182_0000, operands: [RD, RS1, RS2, None] }, // ahs
    Row { key: 0x16F72,         base: 10, word: 0x182_8000, operands: [RD, RS1, RS2, None] }, // or
    Row { key: 0x1626377,       base: 10, word: 0x183_0000, operands: [RD, RS1, None, None] }, // bcw
    Row { key: 0x16D61787773,   base: 10, word: 0x183_8000, operands: [RD, RS1, RS2, None] }, // maxws
    Row { key: 0x16D696E7773,   base: 10, word: 0x184_0000, operands: [RD, RS1, RS2, None] }, // minws
    Row { key: 0x16D6C6875,     base: 10, word: 0x184_8000, operands: [RD, RS1, RS2, None] }, // mlhu
    Row { key: 0x16D6C686375,   base: 10, word: 0x185_0000, operands: [RD, RS1, RS2, None] }, // mlhcu
    Row { key: 0x1616E64,       base: 10, word: 0x185_8000, operands: [RD, RS1, RS2, None] }, // and
    Row { key: 0x1636C7A77,     base: 10, word: 0x186_0000, operands: [RD, RS1, None, None] }, // clzw
    Row { key: 0x1726F7477,     base: 10, word: 0x186_8000, operands: [RD, RS1, RS2, None] }, // rotw
    Row { key: 0x173667775,     base: 10, word: 0x187_0000, operands: [RD, RS1, RS2, None] }, // sfwu
    Row { key: 0x173666873,     base: 10, word: 0x187_8000, operands: [RD, RS1, RS2, None] }, // sfhs
    Row { key: 0x12E776F7264,   base: 16, word: 0x000_0000, operands: [WHOLE, None, None, None] }, // .word
];
