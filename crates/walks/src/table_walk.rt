//! One table, walked into a vector.
ghost use Rattle.std.specs.Prelude.{◌≡◌, IfOk};
ghost use Rattle.walk.specs.Rule.{OperandsEarlier};
ghost use Rattle.walks.specs.Walks.{IsWalk};
ghost use Rattle.walks.specs.Both.{AreBoth};

use node::table::NodeTable;
use std::alloc::{AllocError, Global};
use walk::depth::Depth;
use walk::reading::Reading;
use walk::steady::Steady;
use walk::walk::{Tally, walk};

/// The value of each item in the place of its number, and what the walk did.
#[derive(Drop)]
pub struct TableWalk<V> {
    pub values: Vec<V>,
    pub tally: Tally,
}

/// A table walked by both readings.
#[derive(Drop)]
pub struct BothWalks {
    pub depth: TableWalk<u32>,
    pub steady: TableWalk<bool>,
}

/// The values of a table by a reading, in as many places as it has items.
pub fn walk_table<'a, R: Reading, T: NodeTable<'a>>(
    heap: Global,
    reading: &R,
    table: &mut T,
) -> Result<TableWalk<R::Value>, AllocError>
where
    R::Value: Clone + Default,
    requires { OperandsEarlier (T.nodes table.old) }
    ensures walk { IfOk result (λ w. IsWalk (R.steps reading.now) (T.nodes table.old) w.values.items w.tally) }
    ensures same { T.nodes table.new ≡ T.nodes table.old }
{
    let mut values = vec![in heap; R::Value::default(); table.count()]?;
    match walk(reading, table, values.as_mut_slice()) {
        Ok(tally) => Ok(TableWalk { values, tally }),
        Err(_) => unreachable!(),
    }
}

/// The values of a table by both readings.
pub fn walk_both<'a, T: NodeTable<'a>>(heap: Global, table: &mut T) -> Result<BothWalks, AllocError>
    requires { OperandsEarlier (T.nodes table.old) }
    ensures { IfOk result (AreBoth (T.nodes table.old)) }
{
    Ok(BothWalks {
        depth: walk_table(heap, &Depth, table)?,
        steady: walk_table(heap, &Steady, table)?,
    })
}
