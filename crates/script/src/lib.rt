// Taking a script apart: lines, words and numbers.

#![tactic(auto)]

mod numbers;
mod words;

pub use crate::numbers::{decimal, hex};
pub use crate::words::{first_line, first_word, line_end, word_end};
