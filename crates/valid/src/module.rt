//! A finished module.
ghost use Rattle.std.specs.Prelude.{◌≡◌, ◌<◌, true, false, length, Some, None, MatchOption};
ghost use Rattle.std.specs.List.{slice_get};
ghost use Rattle.rules.specs.Sizes.{sizes as sizes_of};
ghost use Rattle.draft.specs.State.{state};
ghost use Rattle.arena.specs.Viewing.{viewed, finished};
ghost use Rattle.items.specs.Whole.{items_of, module_of};

use arena::view::{Home, View};
use ir::handle::Table;
use items::item::Item;
use items::items::Items;
use items::lookup::lookup;
use items::section::Section;
use rules::sizes::Sizes;

/// A view of a draft in which no function is open, and how many items each table has.
#[derive(Clone, Copy)]
pub struct Module<'a> {
    pub view: View<'a>,
    pub sizes: Sizes,
    pub ghost ended: { (state (viewed view)).opened ≡ None },
    pub ghost sized: { sizes ≡ sizes_of (module_of (viewed view)) },
}

/// How many items each table of the module has.
fn sizes(view: View<'_>) -> Sizes
    requires { (state (viewed view)).opened ≡ None }
    ensures { result ≡ sizes_of (module_of (viewed view.entry)) }
{
    Sizes {
        types: view.count(Home::Module, Table::Types),
        constants: view.count(Home::Module, Table::Constants),
        overrides: view.count(Home::Module, Table::Overrides),
        global_variables: view.count(Home::Module, Table::GlobalVariables),
        local_variables: 0,
        expressions: view.count(Home::Module, Table::Expressions),
        functions: view.count(Home::Module, Table::Functions),
        filters: view.count(Home::Module, Table::Filters),
    }
}

impl<'a> Module<'a> {
    ghost use Rattle.items.specs.Item.{shown, items_left};
    ghost use Rattle.valid.specs.Module.{shown_module};

    /// The module that is viewed, where no function is open and no records wait.
    pub fn of(view: View<'a>) -> Option<Module<'a>>
        ensures { MatchOption result (finished (state (viewed view.entry)) ≡ false) (λ m. (finished (state (viewed view.entry)) ≡ true) × (shown_module m ≡ module_of (viewed view.entry))) }
    {
        if view.is_finished() {
            Some(Module {
                view,
                sizes: sizes(view),
            })
        } else {
            None
        }
    }

    /// The items of a section of the module.
    pub fn items(self, section: Section) -> Items<'a>
        ensures { items_left result ≡ items_of section (viewed self.entry.view) }
    {
        Items::between(self.view, section, 0, self.view.kept())
    }

    /// The constant with this number.
    pub fn constant_item(self, number: u32) -> Item<'a>
        requires { number < length (shown_module self).constants }
        ensures { slice_get (shown_module self.entry).constants number ≡ Some (shown result) }
    {
        lookup(self.view, Table::Constants, number).unwrap()
    }

    /// The override with this number.
    pub fn override_item(self, number: u32) -> Item<'a>
        requires { number < length (shown_module self).overrides }
        ensures { slice_get (shown_module self.entry).overrides number ≡ Some (shown result) }
    {
        lookup(self.view, Table::Overrides, number).unwrap()
    }
}
