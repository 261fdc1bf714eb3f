//! The places at which the items of a table stand.
ghost use Rattle.std.specs.Prelude.{◌+◌, ◌^◌, ◌<◌, length};
ghost use Rattle.std.specs.Iterator.Adapters.{enumerate_count, enumerate_source};
ghost use Rattle.std.specs.Slice.Iter.{iter_rest};

use crate::home::{is_among, is_inside};
use crate::slot::Slot;
use crate::view::Home;
use draft::state::SlotTable;
use std::iter::Enumerate;
use std::slice;

/// The places of the items of a table of a home, in the order of their numbers.
#[derive(Drop)]
pub(crate) struct Places<'a> {
    pub(crate) home: Home,
    /// What the slots of the table say.
    pub(crate) table: Option<SlotTable>,
    /// Whether those before the first slot that is left stand in the home.
    pub(crate) inside: bool,
    /// The slots that are left, with their places.
    pub(crate) slots: Enumerate<slice::Iter<'a, Slot>>,
    ghost numbered: { enumerate_count slots + length (iter_rest (enumerate_source slots)) < 2 ^ 64 },
}

impl<'a> Iterator for Places<'a> {
    ghost use Rattle.std.specs.Iterator.{YieldsFirst, item_count};
    ghost use Rattle.arena.specs.Viewing.{places_ahead};

    type Item = usize;

    ghost next_gives = { YieldsFirst places_ahead };

    ghost remaining = { item_count places_ahead };

    fn next(&mut self) -> Option<usize> {
        // No `find_map`: its closure would change `inside`, by which the next slot goes.
        while let Some((place, slot)) = self.slots.next() {
            self.inside = is_inside(self.home, self.inside, *slot);
            if self.inside && is_among(self.table, *slot) {
                return Some(place);
            }
        }
        None
    }
}
