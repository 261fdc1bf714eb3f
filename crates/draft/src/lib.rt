//! A draft without its memory: which record may come next, and what is counted of those that came.
#![tactic(auto)]

pub mod behaviour;
pub mod counts;
pub mod manner;
pub mod refusal;
pub mod stack;
pub mod state;
