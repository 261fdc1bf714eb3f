//! The test that every operand is earlier.
ghost use Rattle.std.specs.Prelude.{◌≡◌};
ghost use Rattle.node.specs.Nodes.{operands_at};
ghost use Rattle.node.specs.Late.{first_late, first_late_of};

use crate::table::NodeTable;

/// An operand that is not earlier than the item that takes it.
#[derive(Clone, Copy)]
pub struct Late {
    pub item: usize,
    pub operand: usize,
}

/// The first operand of an item that is not strictly below the item's number.
pub fn late_operand<'a, T: NodeTable<'a>>(table: &mut T, item: usize) -> Option<usize>
    ensures answer { result ≡ first_late item (operands_at (T.nodes table.old) item) }
    ensures same { T.nodes table.new ≡ T.nodes table.old }
{
    let count = table.operand_count(item)?;
    for place in 0..count {
        let operand = table.operand(item, place).unwrap();
        if operand >= item {
            return Some(operand);
        }
    }
    None
}

/// The first operand of a table that is not earlier, item by item.
pub fn late_in<'a, T: NodeTable<'a>>(table: &mut T) -> Option<Late>
    ensures answer { result ≡ first_late_of (T.nodes table.old) }
    ensures same { T.nodes table.new ≡ T.nodes table.old }
{
    for item in 0..table.count() {
        if let Some(operand) = late_operand(table, item) {
            return Some(Late { item, operand });
        }
    }
    None
}
