//! A function or an entry point, and what stands in it.
ghost use Rattle.std.specs.Prelude.{◌≡◌, suc};
ghost use Rattle.arena.specs.Viewing.{viewed};
ghost use Rattle.items.specs.Between.{items_between};
ghost use Rattle.items.specs.Whole.{ends, ending_from, body_of};

use crate::item::Item;
use crate::items::Items;
use crate::section::Section;
use arena::view::View;

/// The record that opened a body, and the place of the one that ends it.
#[derive(Clone, Copy)]
pub struct Body<'a> {
    view: View<'a>,
    pub opener: Item<'a>,
    end: usize,
}

/// Whether a record ends a body.
fn is_ending(bytes: &[u8]) -> bool
    ensures { result ≡ ends bytes.now }
{
    matches!(bytes, [31, ..])
}

/// The place of the first record from a place on that ends a body.
fn ending_from(view: View<'_>, place: usize) -> usize
    ensures { result ≡ ending_from (viewed view.entry) place }
{
    for end in place..view.kept() {
        let bytes = view.record(end).unwrap();
        if is_ending(bytes) {
            return end;
        }
    }
    place.max(view.kept())
}

impl<'a> Body<'a> {
    ghost use Rattle.items.specs.Item.{shown, items_left, shown_body};

    /// The body that an item opened.
    pub fn of(view: View<'a>, opener: Item<'a>) -> Body<'a>
        ensures { shown_body result ≡ body_of (viewed view.entry) (shown opener.entry) }
    {
        Body {
            view,
            opener,
            end: ending_from(view, opener.place + 1),
        }
    }

    /// The items of a section that stand in it.
    pub fn items(self, section: Section) -> Items<'a>
        ensures { items_left result ≡ items_between section (viewed self.entry.view) (suc self.entry.opener.place) self.entry.end }
    {
        Items::between(self.view, section, self.opener.place + 1, self.end)
    }
}
