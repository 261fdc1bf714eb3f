//! The items that kept records make, gone through by place.
#![tactic(auto)]

pub mod body;
pub mod entry;
pub mod item;
pub mod items;
pub mod last;
pub mod lookup;
pub mod section;
