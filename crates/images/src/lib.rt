//! Whole images: their records put on a new draft, one after the other, and what is asked of what they
//! make: the check, or sealing.
#![tactic(auto)]

pub mod ask;
pub mod fixed;
pub mod put;
pub mod question;
pub mod refusal;
pub mod verdict;
