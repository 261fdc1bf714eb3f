//! Walks of a table of an image: its records are put on a new draft, the draft is sealed and the table is walked.
#![tactic(auto)]

pub mod fixed;
pub mod flags;
pub mod image;
pub mod refusal;
pub mod table;
#[cfg(test)]
mod tests;
pub mod walked;
