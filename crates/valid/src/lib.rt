//! The check of a draft's module, in naga's order.
#![tactic(auto)]

mod bodies;
pub mod check;
pub mod constants;
mod filters;
pub mod module;
mod sizes;
#[cfg(test)]
mod tests;
mod types;
pub mod unmet;
