//! Which slots are the items of a table of a home.
ghost use Rattle.std.specs.Prelude.{◌≡◌, Some, None};
ghost use Rattle.arena.specs.Viewing.{module_table, body_table, slot_table, among, opens, enters};

use crate::slot::Slot;
use crate::view::Home;
use draft::state::{BodyKind, SlotTable};
use ir::handle::Table;

// The maps between enums are one `match` each: no derive or trait of std gives them.

/// What the slots of a table of the module say.
fn table_in_module(table: Table) -> Option<SlotTable>
    ensures { result ≡ module_table table }
{
    match table {
        Table::Types => Some(SlotTable::Types),
        Table::Constants => Some(SlotTable::Constants),
        Table::Overrides => Some(SlotTable::Overrides),
        Table::GlobalVariables => Some(SlotTable::GlobalVariables),
        Table::LocalVariables => None,
        Table::Expressions => Some(SlotTable::Expressions),
        Table::Functions => Some(SlotTable::Functions),
        Table::Filters => Some(SlotTable::Filters),
        Table::EntryPoints => Some(SlotTable::EntryPoints),
    }
}

/// What the slots of a table of a body say.
fn table_in_body(table: Table) -> Option<SlotTable>
    ensures { result ≡ body_table table }
{
    match table {
        Table::LocalVariables => Some(SlotTable::LocalVariables),
        Table::Expressions => Some(SlotTable::LocalExpressions),
        Table::Types
        | Table::Constants
        | Table::Overrides
        | Table::GlobalVariables
        | Table::Functions
        | Table::Filters
        | Table::EntryPoints => None,
    }
}

/// What the slots of a table of this home say; none where the home has no such table.
pub(crate) fn table_in(home: Home, table: Table) -> Option<SlotTable>
    ensures { result ≡ slot_table home table }
{
    match home {
        Home::Module => table_in_module(table),
        Home::Function(_) | Home::EntryPoint(_) => table_in_body(table),
    }
}

/// Which body a slot of this table opens.
fn opened_by(table: SlotTable) -> Option<BodyKind>
    ensures { result ≡ opens table }
{
    match table {
        SlotTable::Functions => Some(BodyKind::Function),
        SlotTable::EntryPoints => Some(BodyKind::EntryPoint),
        _ => None,
    }
}

/// Whether a slot stands in this home, where those before it do or do not.
pub(crate) fn is_inside(home: Home, inside: bool, slot: Slot) -> bool
    ensures { result ≡ enters home inside slot.table slot.number }
{
    match (home, opened_by(slot.table)) {
        (Home::Module, _) => true,
        (_, None) => inside,
        (Home::Function(number), Some(BodyKind::Function))
        | (Home::EntryPoint(number), Some(BodyKind::EntryPoint)) => { slot.number == number }
        _ => false,
    }
}

/// Whether a slot has this table.
pub(crate) fn is_among(table: Option<SlotTable>, slot: Slot) -> bool
    ensures { result ≡ among table slot.table }
{
    table == Some(slot.table)
}
