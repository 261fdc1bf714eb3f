//! Kinds of records, the fields of each, and the handles, numbers and ranges that fields hold.
#![tactic(auto)]

pub mod fields;
pub mod handle;
pub mod kinds;
pub mod non_max_u32;
pub mod numbers;
pub mod range;
mod shown;
