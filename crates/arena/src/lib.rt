//! A draft of records in lent memory.
#![tactic(auto)]

pub mod answer;
mod find;
mod home;
mod places;
mod put;
pub mod slot;
mod taken;
pub mod view;

use draft::counts::Counts;

/// A draft: what is counted of its records, which stand in bytes and slots that each call is lent.
#[derive(Drop)]
pub struct Draft {
    counts: Counts,
}
