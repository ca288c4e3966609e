// What the programs share: a whole input or a named file read into a lent buffer, and bytes written to standard output and standard error.

#![tactic(auto)]

pub mod arguments;
pub mod input;
pub mod output;
pub mod refused;
