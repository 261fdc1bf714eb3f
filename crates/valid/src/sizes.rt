//! The tests of a type whose size is an override: naga goes through types and global expressions in tandem.
ghost use Rattle.std.specs.Prelude.{◌≡◌, ◌<◌, suc, max, length, IfOk};
ghost use Rattle.std.specs.List.{flat_map};
ghost use Rattle.rules.specs.Fault.{first, numbered_from};
ghost use Rattle.rules.specs.Firsts.{failure};
ghost use Rattle.rules.specs.Items.{init_of, at};
ghost use Rattle.rules.specs.Check.{sized_tests};
ghost use Rattle.rules.specs.Once.{met_after, unmet, init_once, size_once, pending_once};
ghost use Rattle.items.specs.Item.{shown};
ghost use Rattle.body.specs.Errors.{invalid_handle};
ghost use Rattle.valid.specs.Module.{shown_module};
ghost use Rattle.valid.specs.Unmet.{Waits};

use crate::constants::{own, validate_const_expression_handles};
use crate::module::Module;
use crate::unmet::Unmet;
use body::errors::InvalidHandleError;
use body::inside::{check_dep, check_inside};
use ir::handle::Table;
use items::item::Item;

/// A global expression up to the init of a size: its own tests, and the type that they return is earlier.
fn check_sized(
    module: Module<'_>,
    number: usize,
    expression: Item<'_>,
    ty: usize,
    place: usize,
) -> Result<(), InvalidHandleError>
    ensures { failure invalid_handle result ≡ first (sized_tests (shown_module «module».entry) ty place number (shown expression.entry)) }
{
    if let Some(returned) = validate_const_expression_handles(module, number, expression)? {
        check_dep(Table::Types, ty, returned as usize, place)?;
    }
    Ok(())
}

/// Every global expression up to the init that is not tested yet.
fn validate_up_to(
    module: Module<'_>,
    rest: &mut Unmet<'_>,
    init: u32,
    ty: usize,
    place: usize,
) -> Result<(), InvalidHandleError>
    requires waits { Waits (shown_module «module») rest.old }
    requires within { init < length (shown_module «module»).expressions }
    ensures tested { failure invalid_handle result ≡ first (numbered_from (sized_tests (shown_module «module».entry) ty place) rest.old.first (unmet (shown_module «module».entry) rest.old.first init)) }
    ensures after { IfOk result (λ _. Waits (shown_module «module».entry) rest.new × (rest.new.first ≡ max (suc init) rest.old.first)) }
{
    while rest.first <= init as usize {
        let number = rest.first;
        let expression = rest.left.next().unwrap();
        rest.first += 1;
        check_sized(module, number, expression, ty, place)?;
    }
    Ok(())
}

/// The init of the override that is a size is inside, and every global expression up to it passes.
fn validate_init(
    module: Module<'_>,
    rest: &mut Unmet<'_>,
    init: u32,
    ty: usize,
    place: usize,
) -> Result<(), InvalidHandleError>
    requires { Waits (shown_module «module») rest.old }
    ensures tested { failure invalid_handle result ≡ first (init_once (shown_module «module».entry) rest.old.first ty place init) }
    ensures after { IfOk result (λ _. Waits (shown_module «module».entry) rest.new × (rest.new.first ≡ max (suc init) rest.old.first)) }
{
    check_inside(Table::Expressions.handle(init), module.sizes, place)?;
    validate_up_to(module, rest, init, ty, place)
}

/// The type of the override that is a size is earlier, and its init, if any, passes.
fn validate_size(
    module: Module<'_>,
    rest: &mut Unmet<'_>,
    size: Item<'_>,
    ty: usize,
    place: usize,
) -> Result<(), InvalidHandleError>
    requires { Waits (shown_module «module») rest.old }
    ensures tested { failure invalid_handle result ≡ first (size_once (shown_module «module».entry) rest.old.first ty place (shown size.entry)) }
    ensures after { IfOk result (λ _. Waits (shown_module «module».entry) rest.new × (rest.new.first ≡ met_after rest.old.first (init_of (shown size.entry)))) }
{
    if let Some(named) = own(size, Table::Types) {
        check_dep(Table::Types, ty, named as usize, place)?;
    }
    if let Some(init) = own(size, Table::Expressions) {
        validate_init(module, rest, init, ty, place)?;
    }
    Ok(())
}

/// The override that is the size of a type is inside, and passes.
pub(crate) fn validate_pending(
    module: Module<'_>,
    rest: &mut Unmet<'_>,
    size: u32,
    ty: usize,
    place: usize,
) -> Result<(), InvalidHandleError>
    requires { Waits (shown_module «module») rest.old }
    ensures tested { failure invalid_handle result ≡ first (pending_once (shown_module «module».entry) rest.old.first ty place size) }
    ensures after { IfOk result (λ _. Waits (shown_module «module».entry) rest.new × (rest.new.first ≡ met_after rest.old.first (flat_map init_of (at (shown_module «module».entry).overrides size)))) }
{
    check_inside(Table::Overrides.handle(size), module.sizes, place)?;
    validate_size(module, rest, module.override_item(size), ty, place)
}
