//! Records: how an image is cut into them, when one is refused, and which handles one holds.
#![tactic(auto)]

pub mod body;
pub mod handles;
pub mod image;
pub mod judge;
