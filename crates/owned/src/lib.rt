//! A draft that owns its memory.
#![tactic(auto)]

pub mod denial;
pub mod owned;
