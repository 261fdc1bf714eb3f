//! The last of some items.
ghost use Rattle.std.specs.Prelude.{◌≡◌};
ghost use Rattle.std.specs.Option.{option_map};
ghost use Rattle.items.specs.Item.{shown, items_left};
ghost use Rattle.items.specs.Whole.{last_of};

use crate::item::Item;
use crate::items::Items;

/// The last of some items, of which the last counts.
pub fn last(items: Items<'_>) -> Option<Item<'_>>
    ensures { option_map shown result ≡ last_of (items_left items.entry) }
{
    items.last()
}
