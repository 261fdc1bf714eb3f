//! What put answers: the item that an accepted record is, if it is numbered.
ghost use Rattle.std.specs.Prelude.{◌≡◌};
ghost use Rattle.arena.specs.Answer.{answered, answer_number, handle_table as table_of};

use draft::state::SlotTable;
use ir::handle::{Handle, Table};

/// The number of the item that put answered, and 0 for a record without a number.
// A 0 for none, as answers are printed.
pub fn answered_number(answer: Option<Handle>) -> u32
    ensures { result ≡ answer_number answer }
{
    answer.map_or(0, |handle| handle.index())
}

/// The table whose handles name the items of a slot's table, where it has numbers.
// A `match`: no derive gives a map between enums.
pub fn handle_table(table: SlotTable) -> Option<Table>
    ensures { result ≡ table_of table }
{
    match table {
        SlotTable::Unnumbered | SlotTable::Taken => None,
        SlotTable::Types => Some(Table::Types),
        SlotTable::Overrides => Some(Table::Overrides),
        SlotTable::Constants => Some(Table::Constants),
        SlotTable::GlobalVariables => Some(Table::GlobalVariables),
        SlotTable::Filters => Some(Table::Filters),
        SlotTable::Expressions | SlotTable::LocalExpressions => Some(Table::Expressions),
        SlotTable::Functions => Some(Table::Functions),
        SlotTable::EntryPoints => Some(Table::EntryPoints),
        SlotTable::LocalVariables => Some(Table::LocalVariables),
    }
}

/// The item with this number in the table of a slot.
pub(crate) fn item(table: SlotTable, number: u32) -> Option<Handle>
    ensures { result ≡ answered table number }
{
    handle_table(table).map(|named| named.handle(number))
}
