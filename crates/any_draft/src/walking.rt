//! Seals a draft and walks one of its tables.
ghost use Rattle.std.specs.Prelude.{IfOk};
ghost use Rattle.draft.specs.State.{state};
ghost use Rattle.any_draft.specs.Walking.{WalkedOrDenied};

use crate::drafts::AnyDraft;
use rules::faults::Rejection;
use sealed_walk::walking::DraftTable;
use std::alloc::{AllocError, Global};
use walk::reading::Reading;
use walk::walk::WalkRefusal;
use walks::one_walk::walk_one;
use walks::table_walk::TableWalk;

/// Why no table of a draft is walked.
#[derive(Clone, Copy)]
pub enum NoWalk {
    /// It is not sealed.
    Rejected(Rejection),
    /// The walk refuses.
    Refused(WalkRefusal),
}

/// The values of a table of a draft by a reading, where it is sealed and has that table.
// Results in one another: what is denied is an answer to show, and only want of memory an error.
pub fn seal_and_walk<D: AnyDraft, R: Reading>(
    heap: Global,
    draft: &D,
    table: DraftTable,
    reading: &R,
) -> Result<Result<TableWalk<R::Value>, NoWalk>, AllocError>
where
    R::Value: Clone + Default,
    ensures { IfOk result (WalkedOrDenied (R.steps reading.now) table (state (D.kept draft.now))) }
{
    match draft.sealed() {
        Err(rejection) => Ok(Err(NoWalk::Rejected(rejection))),
        Ok(sealed) => match walk_one(heap, sealed, table, reading)? {
            Ok(walk) => Ok(Ok(walk)),
            Err(refusal) => Ok(Err(NoWalk::Refused(refusal))),
        },
    }
}
