//! The tests of types and global expressions, which naga goes through in tandem.
ghost use Rattle.std.specs.Prelude.{◌≡◌, ◌∷◌, IfOk, drop, [], MatchResult, Some, Ok, Err};
ghost use Rattle.std.specs.List.{flat_map, slice_get};
ghost use Rattle.rules.specs.Fault.{first, numbered_from};
ghost use Rattle.rules.specs.Firsts.{failure};
ghost use Rattle.rules.specs.Check.{const_expression_tests};
ghost use Rattle.rules.specs.Once.{inits, met_after, type_once, types_once};
ghost use Rattle.items.specs.Item.{shown, items_left};
ghost use Rattle.tables.specs.Cursor.{table_nodes};
ghost use Rattle.tables.specs.Tables.{types_nodes};
ghost use Rattle.body.specs.Errors.{invalid_handle};
ghost use Rattle.valid.specs.Module.{shown_module};
ghost use Rattle.valid.specs.Unmet.{Waits};

use crate::constants::{own, validate_const_expression_handles};
use crate::module::Module;
use crate::sizes::validate_pending;
use crate::unmet::Unmet;
use body::errors::InvalidHandleError;
use body::expressions::check_operands;
use draft::state::SlotTable;
use ir::handle::Table;
use items::item::Item;
use items::section::Section;
use tables::tables::TypeTable;

/// A type: its base or members are earlier, and its size passes.
fn validate_type(
    module: Module<'_>,
    types: &mut TypeTable<'_>,
    rest: &mut Unmet<'_>,
    number: usize,
    ty: Item<'_>,
) -> Result<(), InvalidHandleError>
    requires table { table_nodes types.old ≡ types_nodes (shown_module «module») }
    requires here { slice_get (shown_module «module»).types number ≡ Some (shown ty) }
    requires waits { Waits (shown_module «module») rest.old }
    ensures tested { failure invalid_handle result ≡ first (type_once (shown_module «module».entry) rest.old.first number (shown ty.entry)) }
    ensures same { table_nodes types.new ≡ table_nodes types.old }
    ensures after { IfOk result (λ _. Waits (shown_module «module».entry) rest.new × (rest.new.first ≡ met_after rest.old.first (inits (shown_module «module».entry) (shown ty.entry)))) }
{
    check_operands(types, Table::Types, number, ty.place)?;
    if let Some(size) = own(ty, Table::Overrides) {
        validate_pending(module, rest, size, number, ty.place)?;
    }
    Ok(())
}

/// The types, and for their sizes global expressions: those that are left to be tested.
fn validate_types<'a>(module: Module<'a>) -> Result<Unmet<'a>, InvalidHandleError>
    ensures { MatchResult result (λ u. Waits (shown_module «module».entry) u × (first (types_once (shown_module «module».entry) 0 0 (shown_module «module».entry).types) ≡ first (types_once (shown_module «module».entry) u.first 0 []))) (λ e. first (types_once (shown_module «module».entry) 0 0 (shown_module «module».entry).types) ≡ Some (invalid_handle e)) }
{
    let mut types = TypeTable::new(module.view);
    let mut rest = Unmet {
        left: module.items(Section::Numbered(SlotTable::Expressions)),
        first: 0,
    };
    for (number, ty) in module
        .items(Section::Numbered(SlotTable::Types))
        .enumerate()
    {
        validate_type(module, &mut types, &mut rest, number, ty)?;
    }
    Ok(rest)
}

/// The types and the global expressions.
pub(crate) fn validate_types_and_expressions(module: Module<'_>) -> Result<(), InvalidHandleError>
    ensures { failure invalid_handle result ≡ first (types_once (shown_module «module».entry) 0 0 (shown_module «module».entry).types) }
{
    let rest = validate_types(module)?;
    let mut left = rest.left;
    for number in rest.first..module.sizes.expressions {
        let expression = left.next().unwrap();
        validate_const_expression_handles(module, number, expression)?;
    }
    Ok(())
}
