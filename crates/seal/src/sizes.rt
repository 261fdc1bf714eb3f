//! What sealing tests of types whose size is an override with an init.
ghost use Rattle.std.specs.Prelude.{◌≡◌, ◌<◌, suc, max, length, map, IfOk};
ghost use Rattle.std.specs.List.{flat_map, AllByRecursion};
ghost use Rattle.std.specs.Option.{option_map, option_to_list};
ghost use Rattle.ir.specs.declared.handle.Table.TheVariants as table;
ghost use Rattle.rules.specs.declared.faults.Rule.TheVariants as rule;
ghost use Rattle.rules.specs.Fault.{first, earlier};
ghost use Rattle.rules.specs.Firsts.{failure};
ghost use Rattle.rules.specs.Items.{own, type_of, at};
ghost use Rattle.rules.specs.Once.{inits, met_after};
ghost use Rattle.items.specs.Item.{shown};
ghost use Rattle.valid.specs.Module.{shown_module};
ghost use Rattle.valid.specs.Unmet.{Waits};
ghost use Rattle.sealing.specs.Seal.{waited_tests};
ghost use Rattle.sealing.specs.Once.{up_to_once, pending_once, sizes_once};
ghost use Rattle.sealing.specs.Promised.{InitsInside};
ghost use Rattle.seal.specs.Breach.{breached};

use crate::breach::Breach;
use crate::leaves::seal_type;
use draft::state::SlotTable;
use ir::handle::Table;
use items::item::Item;
use items::lookup::lookup;
use items::section::Section;
use valid::constants::own;
use valid::module::Module;
use valid::unmet::Unmet;

/// The constant that a global expression names, if it names one that is inside.
fn constant_of<'a>(module: Module<'a>, expression: Item<'_>) -> Option<Item<'a>>
    ensures { option_to_list (option_map shown result) ≡ flat_map (at (shown_module «module».entry).constants) (own table.Constants (shown expression.entry)) }
{
    let number = own(expression, Table::Constants)?;
    lookup(module.view, Table::Constants, number)
}

/// The override that a global expression or a type names, if it names one that is inside.
fn override_of<'a>(module: Module<'a>, item: Item<'_>) -> Option<Item<'a>>
    ensures { option_to_list (option_map shown result) ≡ flat_map (at (shown_module «module».entry).overrides) (own table.Overrides (shown item.entry)) }
{
    let number = own(item, Table::Overrides)?;
    lookup(module.view, Table::Overrides, number)
}

/// The type of an item that is named, if there is one, is earlier than a type, whose record stands at a place.
fn seal_type_named(named: Option<Item<'_>>, ty: usize, place: usize) -> Result<(), Breach>
    ensures { failure breached result ≡ first (map (earlier rule.SealedEarlier table.Types ty place) (flat_map type_of (option_to_list (option_map shown named.entry)))) }
{
    match named {
        Some(item) => seal_type(item, ty, place),
        None => Ok(()),
    }
}

/// The types that a global expression names are earlier than a type, whose record stands at a place.
#[tactic(auto, using(crate::proofs::Named::named_first))]
fn seal_types_named(
    module: Module<'_>,
    expression: Item<'_>,
    ty: usize,
    place: usize,
) -> Result<(), Breach>
    ensures { failure breached result ≡ first (waited_tests (shown_module «module».entry) ty place (shown expression.entry)) }
{
    seal_type(expression, ty, place)?;
    seal_type_named(constant_of(module, expression), ty, place)?;
    seal_type_named(override_of(module, expression), ty, place)
}

/// The types that each global expression up to the init names, of those that no type has met, are earlier.
fn seal_up_to(
    module: Module<'_>,
    rest: &mut Unmet<'_>,
    init: u32,
    ty: usize,
    place: usize,
) -> Result<(), Breach>
    requires waits { Waits (shown_module «module») rest.old }
    requires within { init < length (shown_module «module»).expressions }
    ensures tested { failure breached result ≡ first (up_to_once (shown_module «module».entry) rest.old.first ty place init) }
    ensures after { IfOk result (λ _. Waits (shown_module «module».entry) rest.new × (rest.new.first ≡ max (suc init) rest.old.first)) }
{
    while rest.first <= init as usize {
        let expression = rest.left.next().unwrap();
        rest.first += 1;
        seal_types_named(module, expression, ty, place)?;
    }
    Ok(())
}

/// A type: if its size is an override with an init, the types that the global expressions up to it name are earlier.
fn seal_size(
    module: Module<'_>,
    rest: &mut Unmet<'_>,
    number: usize,
    ty: Item<'_>,
) -> Result<(), Breach>
    requires waits { Waits (shown_module «module») rest.old }
    requires within { AllByRecursion (λ e. e < length (shown_module «module»).expressions) (inits (shown_module «module») (shown ty)) }
    ensures tested { failure breached result ≡ first (pending_once (shown_module «module».entry) rest.old.first number (shown ty.entry)) }
    ensures after { IfOk result (λ _. Waits (shown_module «module».entry) rest.new × (rest.new.first ≡ met_after rest.old.first (inits (shown_module «module».entry) (shown ty.entry)))) }
{
    if let Some(size) = override_of(module, ty)
        && let Some(init) = own(size, Table::Expressions)
    {
        seal_up_to(module, rest, init, number, ty.place)?;
    }
    Ok(())
}

/// The sizes of all types.
pub(crate) fn seal_sizes(module: Module<'_>) -> Result<(), Breach>
    requires { InitsInside (shown_module «module») }
    ensures { failure breached result ≡ first (sizes_once (shown_module «module».entry) 0 0 (shown_module «module».entry).types) }
{
    let mut rest = Unmet {
        left: module.items(Section::Numbered(SlotTable::Expressions)),
        first: 0,
    };
    for (number, ty) in module
        .items(Section::Numbered(SlotTable::Types))
        .enumerate()
    {
        seal_size(module, &mut rest, number, ty)?;
    }
    Ok(())
}
