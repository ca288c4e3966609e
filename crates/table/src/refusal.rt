// Why a call refuses, and the first word that is no instruction.

ghost use Rattle.std.specs.Prelude.{◌≡◌, ◌^◌, bit_or, fold, leb, position};
ghost use Rattle.table.specs.Refusal.{first_bad, number_of, place_of};

// Why a call refuses, in the order of the fixed numbers.
#[derive(Clone, Copy, PartialEq, Eq)]
pub enum Refusal {
    // a job file shorter than its header
    Short,
    // more than 64 words
    Count,
    // more than 32 registers, or bytes that are no registers
    Regs,
    // a wrong offset
    Place,
    // a file of another size than its header says
    Length,
    // a word that is no instruction, the first of them at this place
    Word(usize),
    // a register number over 31
    Pointer,
    // a cycle asked of a drained unit
    Drained,
    // too little room in a lent buffer
    Room,
    // a record that is not well made
    State,
    // a line without a name that is known
    Name,
    // a line whose operands are not as stated
    Operands,
    // more than 64 lines
    Lines,
    // bytes that say no edition
    Edition,
    // a register 0 that is not zero where it is wired to it
    Nonzero,
    // a load while a run is in progress
    Busy,
}

impl Refusal {
    // Its fixed number.
    pub fn number(self) -> u32
        ensures { result ≡ number_of self }
    {
        match self {
            Refusal::Short => 1,
            Refusal::Count => 2,
            Refusal::Regs => 3,
            Refusal::Place => 4,
            Refusal::Length => 5,
            Refusal::Word(_) => 6,
            Refusal::Pointer => 7,
            Refusal::Drained => 8,
            Refusal::Room => 9,
            Refusal::State => 10,
            Refusal::Name => 11,
            Refusal::Operands => 12,
            Refusal::Lines => 13,
            Refusal::Edition => 14,
            Refusal::Nonzero => 15,
            Refusal::Busy => 18,
        }
    }

    // The place that is told beside it, 0 where there is none to tell.
    pub fn place(self) -> usize
        ensures { result ≡ place_of self }
    {
        match self {
            Refusal::Word(place) => place,
            _ => 0,
        }
    }
}

// 2^25: a word of this or more is bad, no instruction.
const LIMIT: u32 = 0x200_0000;

// The bits of all words together: where they are below the limit, no word is bad.
fn gathered(words: &[u32]) -> u32
    ensures { result ≡ fold bit_or 0 words.now }
{
    words.iter().fold(0, |all, word| all | *word)
}

// The first bad word, looked for one by one.
fn searched(words: &[u32]) -> Option<usize>
    ensures { result ≡ position (λ w. leb (2 ^ 25) w) words.now }
{
    words.iter().position(|word| *word >= LIMIT)
}

// The place of the first word of 2^25 or more, or the number of words where there is none. That there is none, as in most programs, is found by one test for
// all words.
#[tactic(auto, using(crate::proofs::Places::found, crate::proofs::Places::none_bad))]
pub fn first_bad(words: &[u32]) -> usize
    ensures { result ≡ first_bad words.now }
{
    if gathered(words) < LIMIT {
        return words.len();
    }
    searched(words).unwrap_or(words.len())
}
