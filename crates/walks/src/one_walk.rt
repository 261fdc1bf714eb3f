//! One table of a sealed draft, walked by one reading.
ghost use Rattle.std.specs.Prelude.{IfOk};
ghost use Rattle.draft.specs.State.{state};
ghost use Rattle.seal.specs.Sealed.{IsSealedDraft, sealed_records};
ghost use Rattle.sealed_walk.specs.Walking.{nodes_of};
ghost use Rattle.walks.specs.Walks.{WalkedOrNone};

use crate::table_walk::TableWalk;
use seal::sealed::Sealed;
use sealed_walk::walking::{DraftTable, walk_sealed};
use std::alloc::{AllocError, Global};
use walk::reading::Reading;
use walk::walk::WalkRefusal;

/// The values of a table of a sealed draft by a reading, or that there is no such body. A place is lent for each kept
/// record, so there are always enough.
// Results in one another: a refusal is an answer, and only want of memory an error.
pub fn walk_one<R: Reading>(
    heap: Global,
    sealed: Sealed<'_>,
    table: DraftTable,
    reading: &R,
) -> Result<Result<TableWalk<R::Value>, WalkRefusal>, AllocError>
where
    R::Value: Clone + Default,
    requires { IsSealedDraft sealed }
    ensures { IfOk result (WalkedOrNone (R.steps reading.now) (nodes_of table (state (sealed_records sealed.entry)).built)) }
{
    let places = sealed.view().kept();
    let mut values = vec![in heap; R::Value::default(); places]?;
    match walk_sealed(sealed, table, reading, values.as_mut_slice()) {
        Ok(tally) => {
            values.truncate(tally.items);
            Ok(Ok(TableWalk { values, tally }))
        }
        Err(refusal) => Ok(Err(refusal)),
    }
}
