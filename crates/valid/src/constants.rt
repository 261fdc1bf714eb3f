//! The tests of global expressions.
ghost use Rattle.std.specs.Prelude.{◌≡◌, ◌∷◌, map, IfOk};
ghost use Rattle.std.specs.Option.{option_to_list};
ghost use Rattle.ir.specs.declared.handle.Table.TheVariants as table;
ghost use Rattle.rules.specs.declared.faults.Rule.TheVariants as rule;
ghost use Rattle.rules.specs.Fault.{first, earlier};
ghost use Rattle.rules.specs.Firsts.{failure};
ghost use Rattle.rules.specs.Items.{own, handles, numbers};
ghost use Rattle.rules.specs.Check.{value_tests, constant_tests, override_tests, const_expression_tests, returned};
ghost use Rattle.items.specs.Item.{shown};
ghost use Rattle.body.specs.Errors.{forward_dependency, invalid_handle};
ghost use Rattle.valid.specs.Module.{shown_module};

use crate::module::Module;
use body::errors::{FwdDepError, InvalidHandleError};
use body::inside::{check_dep, check_inside};
use ir::handle::Table;
use items::item::Item;
use tables::operands::Operands;

const CONSTANT: u8 = 65;

const OVERRIDE: u8 = 66;

const ZERO_VALUE: u8 = 67;

const COMPOSE: u8 = 68;

/// The number that the first handle of a table names in an item's own record, if it has one.
pub fn own(item: Item<'_>, table: Table) -> Option<u32>
    ensures { option_to_list result ≡ own table (shown item.entry) }
{
    for handle in item.record.handles() {
        if handle.table() == table {
            return Some(handle.index());
        }
    }
    None
}

/// The init of a constant or of an override that a global expression names is earlier.
fn check_value(number: usize, place: usize, value: Item<'_>) -> Result<(), FwdDepError>
    ensures { failure forward_dependency result ≡ first (value_tests number place (shown value.entry)) }
{
    match own(value, Table::Expressions) {
        Some(init) => check_dep(Table::Expressions, number, init as usize, place),
        None => Ok(()),
    }
}

/// The constant that a global expression names is inside, and its init earlier.
fn check_constant(
    module: Module<'_>,
    number: usize,
    place: usize,
    constant: u32,
) -> Result<(), InvalidHandleError>
    ensures { failure invalid_handle result ≡ first (constant_tests (shown_module «module».entry) number place constant) }
{
    check_inside(Table::Constants.handle(constant), module.sizes, place)?;
    check_value(number, place, module.constant_item(constant))?;
    Ok(())
}

/// The override that a global expression names is inside, and its init, if any, earlier.
fn check_override(
    module: Module<'_>,
    number: usize,
    place: usize,
    named: u32,
) -> Result<(), InvalidHandleError>
    ensures { failure invalid_handle result ≡ first (override_tests (shown_module «module».entry) number place named) }
{
    check_inside(Table::Overrides.handle(named), module.sizes, place)?;
    check_value(number, place, module.override_item(named))?;
    Ok(())
}

/// The components of a Compose are earlier.
fn check_components(number: usize, compose: Item<'_>) -> Result<(), FwdDepError>
    ensures { failure forward_dependency result ≡ first (map (earlier rule.Earlier table.Expressions number compose.entry.place) (numbers table.Expressions (handles (shown compose.entry)))) }
{
    for component in Operands::of_item(Table::Expressions, compose) {
        check_dep(Table::Expressions, number, component, compose.place)?;
    }
    Ok(())
}

/// The tests of a global expression, and the type that they return.
pub(crate) fn validate_const_expression_handles(
    module: Module<'_>,
    number: usize,
    expression: Item<'_>,
) -> Result<Option<u32>, InvalidHandleError>
    ensures tested { failure invalid_handle result ≡ first (const_expression_tests (shown_module «module».entry) number (shown expression.entry)) }
    ensures typed { IfOk result (λ t. option_to_list t ≡ returned (shown expression.entry)) }
{
    match expression.record.bytes {
        [CONSTANT, ..] => {
            if let Some(constant) = own(expression, Table::Constants) {
                check_constant(module, number, expression.place, constant)?;
            }
            Ok(None)
        }
        [OVERRIDE, ..] => {
            if let Some(named) = own(expression, Table::Overrides) {
                check_override(module, number, expression.place, named)?;
            }
            Ok(None)
        }
        [ZERO_VALUE, ..] => Ok(own(expression, Table::Types)),
        [COMPOSE, ..] => {
            check_components(number, expression)?;
            Ok(own(expression, Table::Types))
        }
        _ => Ok(None),
    }
}
