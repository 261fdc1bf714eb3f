//! Drafts with their memory, of a fixed size or growing, behind one trait: what they answer to a put, to a question and
//! to a walk.
#![tactic(auto)]

pub mod drafts;
pub mod walking;
