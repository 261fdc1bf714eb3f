//! The tests of one body, and what a failed test is reported as.
#![tactic(auto)]

pub mod errors;
pub mod expressions;
pub mod function;
pub mod inside;
pub mod statements;
