//! Calls on a draft, and what they answer.
ghost use Rattle.std.specs.Prelude.{◌≡◌};
ghost use Rattle.history.specs.declared.calls.Denial.TheVariants as denial;

use draft::refusal::Refusal;
use ir::handle::Handle;
use node::earlier::Late;
use rules::faults::Rejection;
use sealed_walk::walking::DraftTable;
use walk::walk::{Tally, WalkRefusal};

/// The table that a walk wants: one of the draft's, or one that the caller has.
#[derive(Clone, Copy, Drop)]
pub enum WantedTable<T> {
    Draft(DraftTable),
    Own(T),
}

/// A walk: its reading, the table that it wants, and how many places it is lent at most.
#[derive(Drop)]
#[derive_where(Clone, Copy; T)]
pub struct Walk<'a, R, T> {
    pub reading: &'a R,
    pub table: WantedTable<T>,
    pub places: usize,
}

/// A call on a draft.
// Not a closure: a list of calls is data that a caller gives.
#[derive(Drop)]
#[derive_where(Clone, Copy; T)]
pub enum Call<'a, R, T> {
    Put(&'a [u8]),
    Check,
    Seal,
    Walk(Walk<'a, R, T>),
}

/// Why nothing was walked: sealing refuses the draft, an operand of the caller's table is not earlier, or the walk
/// refuses.
#[derive(Clone, Copy)]
pub enum Denial {
    Rejected(Rejection),
    Late(Late),
    Refused(WalkRefusal),
}

impl From<Rejection> for Denial {
    ghost from_gives = { λ e r. r ≡ denial.Rejected e };

    fn from(rejection: Rejection) -> Denial {
        Denial::Rejected(rejection)
    }
}

impl From<WalkRefusal> for Denial {
    ghost from_gives = { λ e r. r ≡ denial.Refused e };

    fn from(refusal: WalkRefusal) -> Denial {
        Denial::Refused(refusal)
    }
}

/// What a call answered.
#[derive(Clone, Copy)]
pub enum Outcome {
    Put(Result<Option<Handle>, Refusal>),
    Checked(Result<(), Rejection>),
    Sealed(Result<(), Rejection>),
    Walked(Result<Tally, Denial>),
}
