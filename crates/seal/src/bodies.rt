//! What sealing tests of the bodies.
ghost use Rattle.std.specs.Prelude.{◌≡◌, map, true, length};
ghost use Rattle.std.specs.List.{flat_map};
ghost use Rattle.rules.specs.Fault.{first};
ghost use Rattle.rules.specs.Firsts.{failure};
ghost use Rattle.rules.specs.Kinds.{is};
ghost use Rattle.rules.specs.Sizes.{sizes as sizes_of};
ghost use Rattle.arena.specs.Viewing.{viewed};
ghost use Rattle.items.specs.declared.section.Section.TheVariants.{Numbered};
ghost use Rattle.items.specs.Item.{shown, shown_body};
ghost use Rattle.items.specs.Whole.{items_of, body_of};
ghost use Rattle.valid.specs.Module.{shown_module};
ghost use Rattle.sealing.specs.Seal.{FunctionArgument, argument_number, argument_tests, inner_tests, body_tests, compare_tests, compared_tests};
ghost use Rattle.seal.specs.Breach.{breached};

use crate::breach::Breach;
use crate::leaves::{seal_fields, seal_ty};
use body::errors::BadHandle;
use body::function::inner_sizes;
use draft::state::SlotTable;
use items::body::Body;
use items::item::Item;
use items::section::Section;
use rules::faults::FaultKind;
use rules::sizes::Sizes;
use valid::module::Module;

const FUNCTION_ARGUMENT: u8 = 73;

const IMAGE_ATOMIC: u8 = 142;

/// The field of an ImageAtomic that holds what it compares with.
const FUN: usize = 3;

/// The number of the argument that an expression gives.
fn argument_number(expression: Item<'_>) -> usize
    requires { is FunctionArgument (shown expression) ≡ true }
    ensures { result ≡ argument_number (shown expression.entry) }
{
    let [_, a, b, c, d] = expression.record.bytes else {
        unreachable!()
    };
    u32::from_le_bytes([*a, *b, *c, *d]) as usize
}

/// The number of a FunctionArgument is below the number of arguments.
fn seal_argument(expression: Item<'_>, count: usize) -> Result<(), Breach>
    ensures { failure breached result ≡ first (argument_tests count (shown expression.entry)) }
{
    match expression.record.bytes {
        [FUNCTION_ARGUMENT, ..] => {
            let number = argument_number(expression);
            if number < count {
                Ok(())
            } else {
                Err(Breach::Outside(BadHandle {
                    kind: FaultKind::Argument,
                    index: number,
                    place: expression.place,
                }))
            }
        }
        _ => Ok(()),
    }
}

/// An expression of a body with so many arguments.
#[tactic(auto, using(rules::proofs::Firsts::first_append))]
fn seal_inner(expression: Item<'_>, sizes: Sizes, count: usize) -> Result<(), Breach>
    ensures { failure breached result ≡ first (inner_tests sizes count (shown expression.entry)) }
{
    seal_ty(expression, sizes)?;
    seal_argument(expression, count)
}

/// The expressions of a body, in a module with tables of these sizes.
fn seal_body(body: Body<'_>, sizes: Sizes) -> Result<(), Breach>
    ensures { failure breached result ≡ first (body_tests sizes (shown_body body.entry)) }
{
    let count = body.items(Section::Kinds(13, 13)).count();
    for expression in body.items(Section::Numbered(SlotTable::LocalExpressions)) {
        seal_inner(expression, sizes, count)?;
    }
    Ok(())
}

/// The expressions of the bodies that the items of a table opened.
pub(crate) fn seal_bodies(module: Module<'_>, table: SlotTable) -> Result<(), Breach>
    ensures { failure breached result ≡ first (flat_map (body_tests (sizes_of (shown_module «module».entry))) (map (body_of (viewed «module».entry.view)) (items_of (Numbered table) (viewed «module».entry.view)))) }
{
    for opener in module.items(Section::Numbered(table)) {
        seal_body(Body::of(module.view, opener), module.sizes)?;
    }
    Ok(())
}

/// What a statement compares with, if it is an ImageAtomic, is inside.
fn seal_compare(statement: Item<'_>, sizes: Sizes) -> Result<(), Breach>
    ensures { failure breached result ≡ first (compare_tests sizes (shown statement.entry)) }
{
    match statement.record.bytes {
        [IMAGE_ATOMIC, ..] => seal_fields(statement.record, &[FUN], sizes, statement.place),
        _ => Ok(()),
    }
}

/// The statements of a body, in a module with tables of these sizes.
fn seal_statements(body: Body<'_>, sizes: Sizes) -> Result<(), Breach>
    ensures { failure breached result ≡ first (compared_tests sizes (shown_body body.entry)) }
{
    let inner = inner_sizes(body, sizes);
    for statement in body.items(Section::Kinds(128, 154)) {
        seal_compare(statement, inner)?;
    }
    Ok(())
}

/// The statements of the bodies that the items of a table opened.
pub(crate) fn seal_compared(module: Module<'_>, table: SlotTable) -> Result<(), Breach>
    ensures { failure breached result ≡ first (flat_map (compared_tests (sizes_of (shown_module «module».entry))) (map (body_of (viewed «module».entry.view)) (items_of (Numbered table) (viewed «module».entry.view)))) }
{
    for opener in module.items(Section::Numbered(table)) {
        seal_statements(Body::of(module.view, opener), module.sizes)?;
    }
    Ok(())
}
