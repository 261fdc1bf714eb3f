//! What sealing tests of the global expressions.
ghost use Rattle.std.specs.Prelude.{◌≡◌, [], ◌∷◌};
ghost use Rattle.ir.specs.declared.handle.Table.TheVariants as table;
ghost use Rattle.rules.specs.Fault.{first, numbered};
ghost use Rattle.rules.specs.Firsts.{failure};
ghost use Rattle.rules.specs.Sizes.{sizes as sizes_of};
ghost use Rattle.rules.specs.Items.{handles, numbers};
ghost use Rattle.items.specs.Item.{shown};
ghost use Rattle.node.specs.Nodes.{operands_at};
ghost use Rattle.tables.specs.Cursor.{table_nodes};
ghost use Rattle.valid.specs.Module.{shown_module};
ghost use Rattle.sealing.specs.Seal.{placed, global_tests};
ghost use Rattle.seal.specs.Breach.{breached};

use crate::breach::{Breach, Misplaced};
use crate::leaves::{seal_operands, seal_ty};
use draft::state::SlotTable;
use ir::handle::Table;
use items::item::Item;
use items::section::Section;
use rules::sizes::Sizes;
use tables::tables::GlobalExpressionTable;
use valid::module::Module;

const FUNCTION_ARGUMENT: u8 = 73;

const GLOBAL_VARIABLE: u8 = 74;

const LOCAL_VARIABLE: u8 = 75;

const CALL_RESULT: u8 = 87;

/// The global expression with a number is of a kind that may stand there.
fn seal_placed(expression: Item<'_>, number: usize) -> Result<(), Breach>
    ensures { failure breached result ≡ first (placed number (shown expression.entry) ∷ []) }
{
    match expression.record.bytes {
        [
            FUNCTION_ARGUMENT | GLOBAL_VARIABLE | LOCAL_VARIABLE | CALL_RESULT,
            ..
        ] => Err(Breach::Misplaced(Misplaced {
            number,
            place: expression.place,
        })),
        _ => Ok(()),
    }
}

/// The global expression with a number: it may stand there, its operands are earlier, its ty is inside.
#[tactic(auto, using(rules::proofs::Firsts::first_append))]
fn seal_global<'a>(
    expression: Item<'a>,
    number: usize,
    nodes: &mut GlobalExpressionTable<'a>,
    sizes: Sizes,
) -> Result<(), Breach>
    requires { operands_at (table_nodes nodes.old) number ≡ numbers table.Expressions (handles (shown expression)) }
    ensures tested { failure breached result ≡ first (global_tests sizes number (shown expression.entry)) }
    ensures same { table_nodes nodes.new ≡ table_nodes nodes.old }
{
    seal_placed(expression, number)?;
    seal_operands(nodes, Table::Expressions, number, expression.place)?;
    seal_ty(expression, sizes)
}

/// The global expressions.
pub(crate) fn seal_globals(module: Module<'_>) -> Result<(), Breach>
    ensures { failure breached result ≡ first (numbered (global_tests (sizes_of (shown_module «module».entry))) (shown_module «module».entry).expressions) }
{
    let mut nodes = GlobalExpressionTable::new(module.view);
    let expressions = module.items(Section::Numbered(SlotTable::Expressions));
    for (number, expression) in expressions.enumerate() {
        seal_global(expression, number, &mut nodes, module.sizes)?;
    }
    Ok(())
}
