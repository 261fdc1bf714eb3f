//! The values of the tables of a sealed draft, each table in a vector of its own.
#![tactic(auto)]

pub mod bodies;
pub mod draft_walks;
pub mod one_walk;
pub mod table_walk;
