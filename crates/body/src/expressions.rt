//! The tests of the expressions of a body.
ghost use Rattle.std.specs.Prelude.{◌≡◌, map};
ghost use Rattle.std.specs.List.{flat_map};
ghost use Rattle.ir.specs.declared.handle.Table.TheVariants as table;
ghost use Rattle.records.specs.Handles.{handles_of};
ghost use Rattle.rules.specs.declared.faults.Rule.TheVariants as rule;
ghost use Rattle.rules.specs.Fault.{first, earlier, numbered};
ghost use Rattle.rules.specs.Firsts.{failure};
ghost use Rattle.rules.specs.Kinds.{makes_value};
ghost use Rattle.rules.specs.Check.{callee_tests, named_tests, expression_tests};
ghost use Rattle.rules.specs.Items.{handles, numbers};
ghost use Rattle.items.specs.Item.{shown, shown_body};
ghost use Rattle.node.specs.Nodes.{operands_at};
ghost use Rattle.tables.specs.Cursor.{table_nodes};
ghost use Rattle.body.specs.Errors.{forward_dependency, invalid_handle};

use crate::errors::{FwdDepError, InvalidHandleError};
use crate::inside::{check_dep, check_inside, fault_kind};
use draft::state::SlotTable;
use ir::handle::{Handle, Table};
use items::body::Body;
use items::item::Item;
use items::section::Section;
use node::earlier::late_operand;
use node::table::NodeTable;
use rules::sizes::Sizes;
use tables::tables::BodyExpressionTable;

const ZERO_VALUE: u8 = 67;

const COMPOSE: u8 = 68;

/// The operands of an item of a table, whose record stands at a place, are earlier.
pub fn check_operands<'a, T: NodeTable<'a>>(
    nodes: &mut T,
    table: Table,
    item: usize,
    place: usize,
) -> Result<(), FwdDepError>
    ensures tested { failure forward_dependency result ≡ first (map (earlier rule.Earlier table item place) (operands_at (T.nodes nodes.old) item)) }
    ensures same { T.nodes nodes.new ≡ T.nodes nodes.old }
{
    match late_operand(nodes, item) {
        Some(depends_on) => Err(FwdDepError {
            kind: fault_kind(table),
            subject: item,
            depends_on,
            place,
        }),
        None => Ok(()),
    }
}

/// The function that is named in a function, which stands at a place, is earlier; an entry point may name any.
fn check_callee(callee: usize, place: usize, function: Option<usize>) -> Result<(), FwdDepError>
    ensures { failure forward_dependency result ≡ first (callee_tests place function callee) }
{
    match function {
        Some(caller) => check_dep(Table::Functions, caller, callee, place),
        None => Ok(()),
    }
}

/// Whether a record is an expression whose ty is a type that it makes a value of.
fn makes_value(item: Item<'_>) -> bool
    ensures { result ≡ makes_value (shown item.entry) }
{
    matches!(item.record.bytes, [ZERO_VALUE | COMPOSE, ..])
}

/// A handle of an expression that names no expression is inside; of the types only those of a ZeroValue and
/// a Compose are tested.
fn check_named(
    handle: Handle,
    item: Item<'_>,
    sizes: Sizes,
    place: usize,
    function: Option<usize>,
) -> Result<(), InvalidHandleError>
    ensures { failure invalid_handle result ≡ first (named_tests sizes place function (shown item.entry) handle) }
{
    match handle {
        Handle::Expression(_) => {}
        Handle::Type(_) if !makes_value(item) => {}
        Handle::Function(callee) => {
            check_inside(handle, sizes, item.place)?;
            check_callee(callee.index as usize, place, function)?;
        }
        _ => check_inside(handle, sizes, item.place)?,
    }
    Ok(())
}

/// What an expression names besides expressions is inside.
fn check_names(
    item: Item<'_>,
    sizes: Sizes,
    place: usize,
    function: Option<usize>,
) -> Result<(), InvalidHandleError>
    ensures { failure invalid_handle result ≡ first (flat_map (named_tests sizes place function (shown item.entry)) (handles_of item.entry.«record».bytes.now)) }
{
    for handle in item.record.handles() {
        check_named(handle, item, sizes, place, function)?;
    }
    Ok(())
}

/// The expression with a number: what it names is inside, and its operands are earlier.
#[tactic(auto, using(rules::proofs::Firsts::first_append))]
fn validate_expression_handles<'a>(
    expression: Item<'a>,
    number: usize,
    nodes: &mut BodyExpressionTable<'a>,
    sizes: Sizes,
    place: usize,
    function: Option<usize>,
) -> Result<(), InvalidHandleError>
    requires { operands_at (table_nodes nodes.old) number ≡ numbers table.Expressions (handles (shown expression)) }
    ensures tested { failure invalid_handle result ≡ first (expression_tests sizes place function number (shown expression.entry)) }
    ensures same { table_nodes nodes.new ≡ table_nodes nodes.old }
{
    check_names(expression, sizes, place, function)?;
    check_operands(nodes, Table::Expressions, number, expression.place)?;
    Ok(())
}

/// The expressions of a body.
pub(crate) fn validate_expressions(
    body: Body<'_>,
    sizes: Sizes,
    function: Option<usize>,
) -> Result<(), InvalidHandleError>
    ensures { failure invalid_handle result ≡ first (numbered (expression_tests sizes (shown_body body.entry).opener.place function) (shown_body body.entry).expressions) }
{
    let mut nodes = BodyExpressionTable::new(body);
    let expressions = body.items(Section::Numbered(SlotTable::LocalExpressions));
    for (number, expression) in expressions.enumerate() {
        validate_expression_handles(
            expression,
            number,
            &mut nodes,
            sizes,
            body.opener.place,
            function,
        )?;
    }
    Ok(())
}
