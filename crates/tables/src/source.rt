//! Which operands the items of a table have.
ghost use Rattle.std.specs.Prelude.{◌≡◌, ◌^◌, ◌<◌, length};
ghost use Rattle.items.specs.Item.{shown};
ghost use Rattle.tables.specs.Operands.{operands_left};

use crate::operands::Operands;
use arena::view::View;
use ir::handle::Table;
use items::item::Item;

/// What makes the operands of an item.
#[derive(Clone, Copy)]
pub enum Source<'a> {
    /// The handles of a table, in its record and in those that it took.
    Handles(Table),
    /// The calls in the body that it opens.
    Calls(View<'a>),
}

impl<'a> Source<'a> {
    ghost use Rattle.tables.specs.Entering.{operands_by};

    /// The operands of an item.
    pub(crate) fn operands(self, item: Item<'a>) -> Operands<'a>
        ensures gives { operands_left result ≡ operands_by self.entry (shown item.entry) }
        ensures few { length (operands_left result) < 2 ^ 64 }
    {
        match self {
            Source::Handles(table) => Operands::of_item(table, item),
            Source::Calls(view) => Operands::of_calls(view, item),
        }
    }
}
