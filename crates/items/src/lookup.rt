//! Items by their numbers.
ghost use Rattle.std.specs.Prelude.{◌≡◌, ◌<◌, ℕ, List, length, Some, None, MatchOption};
ghost use Rattle.std.specs.List.{slice_get};
ghost use Rattle.draft.specs.State.{state};
ghost use Rattle.arena.specs.Viewing.{viewed, items_in};
ghost use Rattle.arena.specs.declared.view.Home.TheVariants as home;
ghost use Rattle.items.specs.Between.{item_at};
ghost use Rattle.items.specs.Item.{shown};

use crate::entry::entry_at;
use crate::item::Item;
use arena::view::{Home, View};
use ir::handle::Table;
use records::image::Records;

/// The item that the record at a place makes.
pub(crate) fn item_at<'a>(view: View<'a>, place: usize) -> Item<'a>
    requires { place < length (viewed view) }
    ensures { (bytes : List ℕ) → slice_get (viewed view.entry) place ≡ Some bytes → shown result ≡ item_at (viewed view.entry) place bytes }
{
    let entry = entry_at(view, place);
    Item {
        place,
        record: entry.record,
        taken: Records::new(view.waiting_at(place)),
    }
}

/// The item with this number in a table of the module.
pub fn lookup<'a>(view: View<'a>, table: Table, number: u32) -> Option<Item<'a>>
    ensures { MatchOption result (slice_get (items_in home.Module table (state (viewed view.entry))) number ≡ None) (λ i. slice_get (items_in home.Module table (state (viewed view.entry))) number ≡ Some (shown i)) }
{
    let place = view.position(Home::Module, table, number)?;
    Some(item_at(view, place))
}
