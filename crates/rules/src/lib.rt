//! The rules of the check over a module, decoded from records; theorems on them.
#![tactic(auto)]

pub mod faults;
pub mod sizes;
