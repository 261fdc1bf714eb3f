//! How the records of a module print, and what its draft answers.
#![tactic(auto)]

pub mod named;
pub mod show;
pub mod verdict;
pub mod walk_text;
