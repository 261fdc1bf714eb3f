//! Where a kept record stands.
use draft::state::SlotTable;

/// Where a kept record begins, and its number in its table.
// Slots stand in lent memory as three plain fields, which every reader finds alike: `number` stands beside `table` also where the table numbers nothing.
#[derive(Clone, Copy)]
pub struct Slot {
    pub start: usize,
    pub table: SlotTable,
    pub number: u32,
}

impl Slot {
    /// A slot of memory that holds nothing yet.
    pub const EMPTY: Slot = Slot {
        start: 0,
        table: SlotTable::Unnumbered,
        number: 0,
    };
}
