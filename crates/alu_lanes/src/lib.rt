// The lane operations of the instruction table, each on one lane or on one word. Every function takes any input.

#![tactic(auto)]

pub mod bitwise;
pub mod clamped;
pub mod counted;
pub mod moved;
pub mod multiplied;
pub mod ones;
pub mod ordered;
mod sign;
pub mod wrapped;
