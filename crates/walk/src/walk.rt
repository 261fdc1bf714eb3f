//! Makes the value of every item of a node table.
ghost use Rattle.std.specs.Prelude.{◌≡◌, ◌+◌, ◌<◌, ◌≤◌, ◌^◌, length};
ghost use Rattle.std.specs.List.{slice_get};
ghost use Rattle.node.specs.Nodes.{operands_at};
ghost use Rattle.walk.specs.Rule.{OperandsEarlier};
ghost use Rattle.walk.specs.Walked.{Walked, refusal_number};
ghost use Rattle.walk.specs.Made.{MadeAt};

use crate::reading::Reading;
use node::table::NodeTable;
use records::image::Record;

/// What a walk did: items whose value it finished, and operands whose value it took.
#[derive(Clone, Copy)]
pub struct Tally {
    pub items: usize,
    pub takes: usize,
}

/// Why nothing was walked.
#[derive(Clone, Copy)]
pub enum WalkRefusal {
    /// The draft has no function or entry point of that number.
    NoSuchBody,
    /// There are fewer places than items.
    TooFewPlaces,
}

impl WalkRefusal {
    /// Its number.
    pub fn number(self) -> u8
        ensures { result ≡ refusal_number self }
    {
        match self {
            WalkRefusal::NoSuchBody => 14,
            WalkRefusal::TooFewPlaces => 15,
        }
    }
}

/// The value of an item whose operands have theirs.
fn item_value<'a, R: Reading, T: NodeTable<'a>>(
    reading: &R,
    table: &mut T,
    item: usize,
    values: &[R::Value],
    tally: &mut Tally,
) -> R::Value
    requires inside { item < length (T.nodes table.old) }
    requires places { item ≤ length values.now }
    requires earlier { OperandsEarlier (T.nodes table.old) }
    requires few { (tally.old.items + 1 < 2 ^ 64) × (tally.old.takes + length (operands_at (T.nodes table.old) item) < 2 ^ 64) }
    ensures value { MadeAt (R.steps reading.now) values.now (T.nodes table.old) item result }
    ensures items { tally.new.items ≡ tally.old.items + 1 }
    ensures takes { tally.new.takes ≡ tally.old.takes + length (operands_at (T.nodes table.old) item) }
    ensures same { T.nodes table.new ≡ T.nodes table.old }
{
    let bytes = table.record(item).unwrap();
    let count = table.operand_count(item).unwrap();
    let mut running = reading.start(Record { bytes });
    for place in 0..count {
        let operand = table.operand(item, place).unwrap();
        running = reading.take(running, &values[operand]);
        tally.takes += 1;
    }
    tally.items += 1;
    reading.finish(running)
}

/// The value of each item in the place of its number, if there are as many places as items.
pub fn walk<'a, R: Reading, T: NodeTable<'a>>(
    reading: &R,
    table: &mut T,
    values: &mut [R::Value],
) -> Result<Tally, WalkRefusal>
    requires { OperandsEarlier (T.nodes table.old) }
    ensures walked { Walked (R.steps reading.now) (T.nodes table.old) values.old values.new result }
    ensures same { T.nodes table.new ≡ T.nodes table.old }
{
    let count = table.count();
    if values.len() < count {
        return Err(WalkRefusal::TooFewPlaces);
    }
    let mut tally = Tally { items: 0, takes: 0 };
    for item in 0..count {
        values[item] = item_value(reading, table, item, values, &mut tally);
    }
    Ok(tally)
}
