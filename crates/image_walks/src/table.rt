//! The tables by their numbers.
ghost use Rattle.std.specs.Prelude.{◌≡◌};
ghost use Rattle.image_walks.specs.Table.{numbered_table};

use sealed_walk::walking::DraftTable;

/// The table with a number, and for a function or an entry point the number of its body.
pub fn numbered_table(number: u32, body: u32) -> Option<DraftTable>
    ensures { result ≡ numbered_table number body }
{
    match number {
        0 => Some(DraftTable::Types),
        1 => Some(DraftTable::Filters),
        2 => Some(DraftTable::Functions),
        3 => Some(DraftTable::GlobalExpressions),
        4 => Some(DraftTable::Function(body)),
        5 => Some(DraftTable::EntryPoint(body)),
        _ => None,
    }
}
