//! Handles that name an item of their table, and items that depend on earlier ones only.
ghost use Rattle.std.specs.Prelude.{◌≡◌, [], ◌∷◌};
ghost use Rattle.std.specs.List.{flat_map};
ghost use Rattle.records.specs.Gathered.{handles_left};
ghost use Rattle.rules.specs.declared.faults.Rule.TheVariants as rule;
ghost use Rattle.rules.specs.Fault.{first, inside, earlier, range, all_inside, own_inside, fault_kind};
ghost use Rattle.rules.specs.Firsts.{failure};
ghost use Rattle.items.specs.Item.{items_left};
ghost use Rattle.body.specs.Errors.{bad_handle, forward_dependency, bad_range};

use crate::errors::{BadHandle, BadRangeError, FwdDepError};
use ir::handle::{Handle, Table};
use items::items::Items;
use records::handles::Handles;
use rules::faults::FaultKind;
use rules::sizes::Sizes;

/// What the numbers of a table's items count.
pub(crate) fn fault_kind(table: Table) -> FaultKind
    ensures { result ≡ fault_kind table }
{
    match table {
        Table::Types => FaultKind::Type,
        Table::Constants => FaultKind::Constant,
        Table::Overrides => FaultKind::Override,
        Table::GlobalVariables => FaultKind::GlobalVariable,
        Table::LocalVariables => FaultKind::LocalVariable,
        Table::Expressions => FaultKind::Expression,
        Table::Functions | Table::EntryPoints => FaultKind::Function,
        Table::Filters => FaultKind::DiagnosticFilterNode,
    }
}

/// A handle of a record at a place is inside.
pub fn check_inside(handle: Handle, sizes: Sizes, place: usize) -> Result<(), BadHandle>
    ensures { failure bad_handle result ≡ first (inside rule.Inside sizes place handle ∷ []) }
{
    let table = handle.table();
    let index = handle.index() as usize;
    if index < sizes.of(table) {
        Ok(())
    } else {
        Err(BadHandle {
            kind: fault_kind(table),
            index,
            place,
        })
    }
}

/// The item that is named is earlier than its holder, the subject.
pub fn check_dep(
    table: Table,
    subject: usize,
    depends_on: usize,
    place: usize,
) -> Result<(), FwdDepError>
    ensures { failure forward_dependency result ≡ first (earlier rule.Earlier table subject place depends_on ∷ []) }
{
    if depends_on < subject {
        Ok(())
    } else {
        Err(FwdDepError {
            kind: fault_kind(table),
            subject,
            depends_on,
            place,
        })
    }
}

/// A range of expressions is empty, or starts before its end and ends inside.
pub fn check_range(count: usize, start: u32, end: u32, place: usize) -> Result<(), BadRangeError>
    ensures { failure bad_range result ≡ first (range count place start end ∷ []) }
{
    if start == end || (start < end && ((end - 1) as usize) < count) {
        Ok(())
    } else {
        Err(BadRangeError { start, end, place })
    }
}

/// The handles of a record at a place are inside.
pub fn check_handles(handles: Handles<'_>, sizes: Sizes, place: usize) -> Result<(), BadHandle>
    ensures { failure bad_handle result ≡ first (all_inside rule.Inside sizes place (handles_left handles.entry)) }
{
    for handle in handles {
        check_inside(handle, sizes, place)?;
    }
    Ok(())
}

/// Every handle of the items' own records is inside.
pub fn check_own(items: Items<'_>, sizes: Sizes) -> Result<(), BadHandle>
    ensures { failure bad_handle result ≡ first (flat_map (own_inside rule.Inside sizes) (items_left items.entry)) }
{
    for item in items {
        check_handles(item.record.handles(), sizes, item.place)?;
    }
    Ok(())
}
