// What readers and writers of text share: the table of forms of program text, and digits.

#![tactic(auto)]

mod digits;
mod forms;
mod rows;

pub use crate::digits::digit;
pub use crate::forms::Forms;
pub use crate::rows::{Field, Row};
