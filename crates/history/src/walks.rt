//! Makes one walk of a list of calls.
ghost use Rattle.std.specs.Prelude.{◌≡◌, length};
ghost use Rattle.draft.specs.State.{state};
ghost use Rattle.arena.specs.Memory.{Stands, records};
ghost use Rattle.walk.specs.Leaves.{placed, tallied, Leaves};
ghost use Rattle.history.specs.declared.calls.Denial.TheVariants.{Refused};
ghost use Rattle.history.specs.Walks.{drafted, tested, walked_nodes};

use crate::calls::{Denial, Walk, WantedTable};
use arena::Draft;
use arena::slot::Slot;
use node::earlier::late_in;
use node::table::NodeTable;
use seal::seal::seal;
use sealed_walk::walking::{DraftTable, walk_sealed};
use walk::reading::Reading;
use walk::walk::{Tally, walk};

/// Seals a draft, and walks a table of it.
fn walk_of_draft<R: Reading>(
    draft: &Draft,
    bytes: &[u8],
    slots: &[Slot],
    table: DraftTable,
    reading: &R,
    values: &mut [R::Value],
) -> Result<Tally, Denial>
    requires { Stands draft.now bytes.now slots.now }
    ensures answers { result ≡ tallied (placed Refused (length values.old) (drafted (state (records draft.now bytes.now slots.now)) table)) }
    ensures leaves { Leaves (R.steps reading.now) (placed Refused (length values.old) (drafted (state (records draft.now bytes.now slots.now)) table)) values.old values.new }
{
    let sealed = seal(draft, bytes, slots)?;
    let tally = walk_sealed(sealed, table, reading, values)?;
    Ok(tally)
}

/// Tests the caller's table, and walks it.
fn walk_of_own<'a, R: Reading, T: NodeTable<'a>>(
    table: &mut T,
    reading: &R,
    values: &mut [R::Value],
) -> Result<Tally, Denial>
    ensures answers { result ≡ tallied (placed Refused (length values.old) (tested (T.nodes table.old))) }
    ensures leaves { Leaves (R.steps reading.now) (placed Refused (length values.old) (tested (T.nodes table.old))) values.old values.new }
{
    if let Some(late) = late_in(table) {
        return Err(Denial::Late(late));
    }
    let tally = walk(reading, table, values)?;
    Ok(tally)
}

/// Makes a walk, in as many of the values as it is lent.
pub(crate) fn walk_wanted<'a, R: Reading, T: NodeTable<'a> + Copy>(
    walk: &Walk<'_, R, T>,
    draft: &Draft,
    bytes: &[u8],
    slots: &[Slot],
    values: &mut [R::Value],
) -> Result<Tally, Denial>
    requires { Stands draft.now bytes.now slots.now }
    ensures answers { result ≡ tallied (walked_nodes T.nodes (length values.old) (state (records draft.now bytes.now slots.now)) walk.now) }
    ensures leaves { Leaves (R.steps walk.now.reading.now) (walked_nodes T.nodes (length values.old) (state (records draft.now bytes.now slots.now)) walk.now) values.old values.new }
{
    let places = walk.places.min(values.len());
    let lent = &mut values[..places];
    match &walk.table {
        WantedTable::Draft(table) => walk_of_draft(draft, bytes, slots, *table, walk.reading, lent),
        WantedTable::Own(table) => {
            let mut table = *table;
            walk_of_own(&mut table, walk.reading, lent)
        }
    }
}
