//! The items of a section, in the order of their numbers.
ghost use Rattle.std.specs.Prelude.{◌≡◌, ◌^◌, ◌<◌, ◌≤◌, length};
ghost use Rattle.arena.specs.Viewing.{viewed};

use crate::entry::entry_at;
use crate::item::Item;
use crate::lookup::item_at;
use crate::section::Section;
use arena::view::View;

/// The items of a section that the records from one place up to another make.
#[derive(Clone, Copy)]
pub struct Items<'a> {
    view: View<'a>,
    section: Section,
    place: usize,
    end: usize,
    ghost within: { end ≤ length (viewed view) },
    ghost fits: { end < 2 ^ 64 },
}

impl<'a> Items<'a> {
    ghost use Rattle.items.specs.Item.{items_left};
    ghost use Rattle.items.specs.Between.{items_between};

    /// Those of the records from `place` up to `end`, or up to the last.
    pub fn between(view: View<'a>, section: Section, place: usize, end: usize) -> Items<'a>
        ensures { items_left result ≡ items_between section (viewed view.entry) place end }
    {
        Items {
            view,
            section,
            place,
            end: end.min(view.kept()),
        }
    }
}

impl<'a> Iterator for Items<'a> {
    ghost use Rattle.std.specs.Iterator.{YieldsFirstBy, item_count};
    ghost use Rattle.items.specs.Item.{shown, items_left};

    type Item = Item<'a>;

    ghost next_gives = { YieldsFirstBy shown items_left };

    ghost remaining = { item_count items_left };

    fn next(&mut self) -> Option<Item<'a>> {
        while self.place < self.end {
            let place = self.place;
            self.place += 1;
            let entry = entry_at(self.view, place);
            if self.section.has(entry.slot.table, entry.record.bytes) {
                return Some(item_at(self.view, place));
            }
        }
        None
    }
}
