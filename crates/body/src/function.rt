//! The tests of a function or an entry point.
ghost use Rattle.std.specs.Prelude.{◌≡◌, [], ◌∷◌};
ghost use Rattle.std.specs.List.{filter, flat_map};
ghost use Rattle.std.specs.Option.{option_to_list};
ghost use Rattle.ir.specs.declared.handle.Table.TheVariants as table;
ghost use Rattle.records.specs.Gathered.{handles_left};
ghost use Rattle.rules.specs.declared.faults.Rule.TheVariants as rule;
ghost use Rattle.rules.specs.Fault.{first, own_inside, all_inside};
ghost use Rattle.rules.specs.Firsts.{failure};
ghost use Rattle.rules.specs.Sizes.{sizes_in};
ghost use Rattle.rules.specs.Items.{is_of};
ghost use Rattle.rules.specs.Check.{body_leaf, body_tests, entry_handles, entry_tests};
ghost use Rattle.items.specs.Item.{shown, shown_body};
ghost use Rattle.body.specs.Errors.{bad_handle, invalid_handle};

use crate::errors::{BadHandle, InvalidHandleError};
use crate::expressions::validate_expressions;
use crate::inside::{check_handles, check_inside, check_own};
use crate::statements::{check_fields, validate_statements};
use draft::state::SlotTable;
use ir::handle::Table;
use items::body::Body;
use items::item::Item;
use items::last::last;
use items::section::Section;
use records::handles::Handles;
use rules::sizes::Sizes;

/// The field of an entry point's record that says what its mesh is.
const MESH: usize = 8;

/// How many items a body's handles can name, in a module with tables of these sizes.
pub fn inner_sizes(body: Body<'_>, sizes: Sizes) -> Sizes
    ensures { result ≡ sizes_in sizes (shown_body body.entry) }
{
    let local_variables = body
        .items(Section::Numbered(SlotTable::LocalVariables))
        .count();
    let expressions = body
        .items(Section::Numbered(SlotTable::LocalExpressions))
        .count();
    Sizes {
        local_variables,
        expressions,
        ..sizes
    }
}

/// The handles of one table, among those of a record at a place, are inside.
pub fn check_table(
    handles: Handles<'_>,
    table: Table,
    sizes: Sizes,
    place: usize,
) -> Result<(), BadHandle>
    ensures { failure bad_handle result ≡ first (all_inside rule.Inside sizes place (filter (is_of table) (handles_left handles.entry))) }
{
    for handle in handles {
        if handle.table() == table {
            check_inside(handle, sizes, place)?;
        }
    }
    Ok(())
}

/// The result of a body, if it has one: the handles of its record are inside.
fn check_result(body: Body<'_>, sizes: Sizes) -> Result<(), BadHandle>
    ensures { failure bad_handle result ≡ first (flat_map (own_inside rule.Inside sizes) (option_to_list (shown_body body.entry).result)) }
{
    match last(body.items(Section::Kinds(14, 14))) {
        Some(item) => check_handles(item.record.handles(), sizes, item.place),
        None => Ok(()),
    }
}

/// A function, or an entry point where no function is given, in a module with tables of these sizes.
#[tactic(auto, using(rules::proofs::Firsts::first_append))]
pub fn validate_function(
    body: Body<'_>,
    sizes: Sizes,
    function: Option<usize>,
) -> Result<(), InvalidHandleError>
    ensures { failure invalid_handle result ≡ first (body_tests sizes function (shown_body body.entry)) }
{
    let inner = inner_sizes(body, sizes);
    check_own(body.items(Section::Kinds(13, 13)), inner)?;
    check_result(body, inner)?;
    check_own(
        body.items(Section::Numbered(SlotTable::LocalVariables)),
        inner,
    )?;
    check_own(body.items(Section::Kinds(30, 30)), inner)?;
    validate_expressions(body, inner, function)?;
    validate_statements(body.items(Section::Kinds(128, 154)), inner)?;
    let opener = body.opener;
    check_table(opener.record.handles(), Table::Filters, sizes, opener.place)?;
    Ok(())
}

/// Three sizes and the task payload of an entry point's record, and then what its mesh names.
#[tactic(auto, using(crate::proofs::Gathered::inside_first))]
fn check_entry(opener: Item<'_>, sizes: Sizes) -> Result<(), BadHandle>
    ensures { failure bad_handle result ≡ first (all_inside rule.Inside sizes opener.entry.place (entry_handles (shown opener.entry))) }
{
    let place = opener.place;
    check_fields(opener.record, &[4, 5, 6, 9], sizes, place)?;
    let mesh = opener.record.field_handles(MESH);
    check_table(mesh, Table::GlobalVariables, sizes, place)?;
    check_table(mesh, Table::Types, sizes, place)?;
    check_table(mesh, Table::Expressions, sizes, place)
}

/// An entry point, in a module with tables of these sizes.
#[tactic(auto, using(rules::proofs::Firsts::first_append))]
pub fn validate_entry_point(body: Body<'_>, sizes: Sizes) -> Result<(), InvalidHandleError>
    ensures { failure invalid_handle result ≡ first (entry_tests sizes (shown_body body.entry)) }
{
    validate_function(body, sizes, None)?;
    check_entry(body.opener, sizes)?;
    Ok(())
}
