// Where a line and a word end, and what stands in front of that and behind it.

ghost use Rattle.std.specs.Prelude.{◌≡◌, option_map};
ghost use Rattle.script.specs.Words.{next_place, line_end, word_end, apart_at, first_line, first_word};

// Where the next such byte stands from a place on.
fn next_place(text: &[u8], at: usize, byte: u8) -> usize
    ensures { result ≡ next_place byte at text.now }
{
    if at > text.len() {
        return text.len();
    }
    let rest = &text[at..];
    at + rest.iter().position(|b| *b == byte).unwrap_or(rest.len())
}

// The end of the line that begins at a place: where the next newline stands, or the text's end. Of a place beyond the text that is the text's end too.
pub fn line_end(text: &[u8], at: usize) -> usize
    ensures { result ≡ line_end at text.now }
{
    next_place(text, at, b'\n')
}

// The end of the word that begins at a place: where the next space stands, or the line's end. Of a place beyond the line that is the line's end too.
pub fn word_end(line: &[u8], at: usize) -> usize
    ensures { result ≡ word_end at line.now }
{
    next_place(line, at, b' ')
}

// What stands in front of a place, and what stands behind the byte there, if there is one.
fn apart_at(text: &[u8], end: usize) -> (&[u8], Option<&[u8]>)
    ensures { (result.0.now, option_map (λ rest. rest.now) result.1) ≡ apart_at end text.now }
{
    if end < text.len() {
        return (&text[..end], Some(&text[end + 1..]));
    }
    (text, None)
}

// The line in front of a text, and what stands behind its newline, if it has one.
pub fn first_line(text: &[u8]) -> (&[u8], Option<&[u8]>)
    ensures { (result.0.now, option_map (λ rest. rest.now) result.1) ≡ first_line text.now }
{
    apart_at(text, line_end(text, 0))
}

// The word in front of a line, and what stands behind the one space after it, if there is one.
pub fn first_word(line: &[u8]) -> (&[u8], Option<&[u8]>)
    ensures { (result.0.now, option_map (λ rest. rest.now) result.1) ≡ first_word line.now }
{
    apart_at(line, word_end(line, 0))
}
