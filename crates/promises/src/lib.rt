//! What sealing promises of a draft, and why: theorems on its definition.
#![tactic(auto)]

pub mod small;
