// The name in front of a line.

ghost use Rattle.std.specs.Prelude.{◌≡◌};
ghost use Rattle.text_rules.specs.Line.{in_name};
ghost use Rattle.text_reader.specs.Front.{NameRead};

// One byte more than any name of the table has: a name that is longer is none, whatever follows.
const LONGEST: usize = 7;

// A name as a number, its bytes behind a 1, so that no two names have the same; and how many bytes it has.
#[derive(Clone, Copy)]
pub(crate) struct Name {
    pub(crate) key: u64,
    pub(crate) size: usize,
}

fn in_name(b: u8) -> bool
    ensures { result ≡ in_name b }
{
    b != b' ' && b != b'\n'
}

// The bytes up to the first space, newline or end, seven at most. A `for` would have two of the three tests as exits in its body.
pub(crate) fn name_in(text: &[u8]) -> Name
    ensures { NameRead result text.now }
{
    let mut key: u64 = 1;
    let mut size = 0;
    while size < LONGEST && size < text.len() && in_name(text[size]) {
        key = 256 * key + (text[size] as u64);
        size += 1;
    }
    Name { key, size }
}
