//! Names for printing.
#![tactic(auto)]

pub mod cases;
pub mod kinds;
