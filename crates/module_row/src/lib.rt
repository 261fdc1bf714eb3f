//! A row of a sealed module: its types, overrides, constants and global expressions, each after all of these that
//! its handles point to.
#![tactic(auto)]

mod ranked;
mod ranks;
pub mod rows;
#[cfg(test)]
mod tests;
