//! Walking the tables of a sealed draft.
#![tactic(auto)]

#[cfg(test)]
mod tests;
pub mod walking;
