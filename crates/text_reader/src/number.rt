// A number in digits of a base, 10 or 16.

ghost use Rattle.std.specs.Prelude.{◌≡◌, ◌-◌, ◌^◌, ◌≤◌, length, drop};
ghost use Rattle.text_rules.specs.Number.{base_of, is_numeral};
ghost use Rattle.text_reader.specs.Front.{notation_of, DigitsRead, number_at};

use text_table::digit;

// So many digits a number in hex has.
const HEX_DIGITS: usize = 7;

// A number, and where its digits end.
#[derive(Clone, Copy)]
pub(crate) struct Number {
    pub(crate) value: u32,
    pub(crate) end: usize,
}

// Whether digits are a numeral: in hex seven of them, in decimal one or more without a leading zero.
fn is_numeral(digits: &[u8], base: u32) -> bool
    ensures { result ≡ is_numeral (notation_of base) digits.now }
{
    if base == 16 {
        return digits.len() == HEX_DIGITS;
    }
    match digits {
        [] => false,
        [_] => true,
        [first, ..] => *first != b'0',
    }
}

// What the digits from a place to their end say, by the number that they make.
fn judged<const BASE: u32>(
    text: &[u8],
    at: usize,
    end: usize,
    value: u32,
    limit: u32,
) -> Option<Number>
    requires { (at ≤ end) × (end ≤ length text.now) × (BASE ≡ base_of (notation_of BASE)) × DigitsRead BASE (drop at text.now) value (end - at) }
    ensures { result ≡ number_at (notation_of BASE) limit at text.now }
{
    if value >= limit || !is_numeral(&text[at..end], BASE) {
        return None;
    }
    Some(Number { value, end })
}

// The number below the limit at a place, in digits of the base. They are looked at only while their number is below the limit, so that it never wraps, however many follow.
// A loop over the part of the text from there on would have its bounds computed anew for each number.
pub(crate) fn number_in<const BASE: u32>(text: &[u8], at: usize, limit: u32) -> Option<Number>
    requires { (at ≤ length text.now) × (BASE ≡ base_of (notation_of BASE)) × (limit ≤ 2 ^ 25) }
    ensures { result ≡ number_at (notation_of BASE) limit at text.now }
{
    let mut value = 0;
    let mut end = at;
    while end < text.len() {
        let d = digit(text[end]);
        if d >= BASE as u64 {
            break;
        }
        if value >= limit {
            return None;
        }
        value = BASE * value + d as u32;
        end += 1;
    }
    judged::<BASE>(text, at, end, value, limit)
}
