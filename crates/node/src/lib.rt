//! Node tables, and the test that every operand is earlier.
#![tactic(auto)]

pub mod earlier;
pub mod table;
