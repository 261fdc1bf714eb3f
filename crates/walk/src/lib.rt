//! Readings, and the walk that makes the values of items by one: how they are made, the rule that says which values
//! they are, and that no others keep it.
#![tactic(auto)]

pub mod depth;
pub mod reading;
pub mod steady;
#[cfg(test)]
mod tests;
pub mod walk;
