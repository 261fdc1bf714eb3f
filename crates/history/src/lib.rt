//! Lists of calls on one draft.
#![tactic(auto)]

pub mod calls;
pub mod mixed;
pub mod replay;
#[cfg(test)]
mod tests;
mod walks;
