//! Sealing: what the check leaves out, and the draft that only it gives.
#![tactic(auto)]

mod bodies;
mod breach;
mod calls;
mod globals;
mod leaves;
mod others;
pub mod seal;
pub mod sealed;
mod sizes;
#[cfg(test)]
mod tests;
