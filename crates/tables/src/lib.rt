//! The tables of a module and of a body as node tables.
#![tactic(auto)]

pub mod cursor;
pub mod entered;
pub mod operands;
pub mod others;
pub mod source;
pub mod tables;
