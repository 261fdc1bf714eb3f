//! Which records make the items of a list of a module or a body.
ghost use Rattle.std.specs.Prelude.{◌≡◌};
ghost use Rattle.items.specs.Sections.{of_kinds, chosen};

use draft::state::SlotTable;

/// A list of a module or a body, by the records that make its items.
#[derive(Clone, Copy)]
pub enum Section {
    /// The items that a table numbers.
    Numbered(SlotTable),
    /// Those whose kinds have these numbers, both included.
    // Bytes and no `Kind`s, which would ask more of callers: any two bytes may be given.
    Kinds(u8, u8),
}

/// Whether a record's kind has a number from `low` to `high`.
fn is_of_kinds(low: u8, high: u8, bytes: &[u8]) -> bool
    ensures { result ≡ of_kinds low high bytes.now }
{
    match bytes {
        [] => false,
        [byte, ..] => (low..=high).contains(byte),
    }
}

impl Section {
    /// Whether a record of this table makes an item of the section.
    pub fn has(self, table: SlotTable, bytes: &[u8]) -> bool
        ensures { result ≡ chosen self table bytes.now }
    {
        match self {
            Section::Numbered(wanted) => wanted == table,
            Section::Kinds(low, high) => is_of_kinds(low, high, bytes),
        }
    }
}
