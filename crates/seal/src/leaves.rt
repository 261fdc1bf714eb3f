//! Single tests, reported as sealing does.
ghost use Rattle.std.specs.Prelude.{◌≡◌, [], ◌∷◌, map};
ghost use Rattle.std.specs.List.{flat_map};
ghost use Rattle.ir.specs.declared.handle.Table.TheVariants as table;
ghost use Rattle.records.specs.Handles.{field_of};
ghost use Rattle.rules.specs.declared.faults.Rule.TheVariants as rule;
ghost use Rattle.rules.specs.Fault.{first, earlier, all_inside, own_inside};
ghost use Rattle.rules.specs.Firsts.{failure};
ghost use Rattle.rules.specs.Items.{type_of};
ghost use Rattle.items.specs.Item.{shown, items_left};
ghost use Rattle.node.specs.Nodes.{operands_at};
ghost use Rattle.sealing.specs.Seal.{ty_tests};
ghost use Rattle.seal.specs.Breach.{breached};

use crate::breach::Breach;
use body::expressions::check_operands;
use body::function::check_table;
use body::inside::{check_dep, check_own};
use body::statements::check_fields;
use ir::handle::Table;
use items::item::Item;
use items::items::Items;
use node::table::NodeTable;
use records::image::Record;
use rules::sizes::Sizes;
use valid::constants::own;

/// The ty of an expression is inside.
#[tactic(auto, using(crate::proofs::Breaches::outside_first))]
pub(crate) fn seal_ty(expression: Item<'_>, sizes: Sizes) -> Result<(), Breach>
    ensures { failure breached result ≡ first (ty_tests sizes (shown expression.entry)) }
{
    check_table(
        expression.record.handles(),
        Table::Types,
        sizes,
        expression.place,
    )?;
    Ok(())
}

/// The handles in some fields of a record at a place are inside, field after field.
#[tactic(auto, using(crate::proofs::Breaches::outside_first))]
pub(crate) fn seal_fields(
    record: Record<'_>,
    fields: &[usize],
    sizes: Sizes,
    place: usize,
) -> Result<(), Breach>
    ensures { failure breached result ≡ first (all_inside rule.SealedInside sizes place (flat_map (field_of «record».entry.bytes.now) fields.now)) }
{
    check_fields(record, fields, sizes, place)?;
    Ok(())
}

/// Every handle of the items' own records is inside.
#[tactic(auto, using(crate::proofs::Breaches::own_first))]
pub(crate) fn seal_own(items: Items<'_>, sizes: Sizes) -> Result<(), Breach>
    ensures { failure breached result ≡ first (flat_map (own_inside rule.SealedInside sizes) (items_left items.entry)) }
{
    check_own(items, sizes)?;
    Ok(())
}

/// The operands of an item of a table, whose record stands at a place, are earlier.
#[tactic(auto, using(crate::proofs::Breaches::later_first))]
pub(crate) fn seal_operands<'a, T: NodeTable<'a>>(
    nodes: &mut T,
    table: Table,
    item: usize,
    place: usize,
) -> Result<(), Breach>
    ensures tested { failure breached result ≡ first (map (earlier rule.SealedEarlier table item place) (operands_at (T.nodes nodes.old) item)) }
    ensures same { T.nodes nodes.new ≡ T.nodes nodes.old }
{
    check_operands(nodes, table, item, place)?;
    Ok(())
}

/// The type with which an item is declared is earlier than a type, whose record stands at a place.
#[tactic(auto, using(crate::proofs::Breaches::later_first))]
pub(crate) fn seal_type(item: Item<'_>, ty: usize, place: usize) -> Result<(), Breach>
    ensures { failure breached result ≡ first (map (earlier rule.SealedEarlier table.Types ty place) (type_of (shown item.entry))) }
{
    if let Some(named) = own(item, Table::Types) {
        check_dep(Table::Types, ty, named as usize, place)?;
    }
    Ok(())
}
