//! The bodies of a sealed draft, walked one after the other.
ghost use Rattle.std.specs.Prelude.{◌≡◌, IfOk, map};
ghost use Rattle.std.specs.List.{AllByRecursion};
ghost use Rattle.arena.specs.Viewing.{viewed};
ghost use Rattle.items.specs.declared.section.Section.TheVariants.{Numbered};
ghost use Rattle.items.specs.Whole.{items_of, body_of};
ghost use Rattle.tables.specs.Tables.{inner_nodes};
ghost use Rattle.walk.specs.Rule.{OperandsEarlier};
ghost use Rattle.walks.specs.Both.{EachWalked};

use crate::table_walk::{BothWalks, walk_both};
use arena::view::View;
use draft::state::SlotTable;
use items::body::Body;
use items::items::Items;
use items::section::Section;
use std::alloc::{AllocError, Global};
use tables::tables::BodyExpressionTable;

/// The values of the expressions of each body that the items of a table open, in the order of their numbers.
pub(crate) fn walk_bodies(
    heap: Global,
    view: View<'_>,
    table: SlotTable,
) -> Result<Vec<BothWalks>, AllocError>
    requires { AllByRecursion (λ b. OperandsEarlier (inner_nodes b)) (map (body_of (viewed view)) (items_of (Numbered table) (viewed view))) }
    ensures { IfOk result (λ v. EachWalked (map (body_of (viewed view.entry)) (items_of (Numbered table) (viewed view.entry))) v.items) }
{
    let mut walks = Vec::new(heap);
    for opener in Items::between(view, Section::Numbered(table), 0, view.kept()) {
        let mut expressions = BodyExpressionTable::new(Body::of(view, opener));
        walks.push(walk_both(heap, &mut expressions)?)?;
    }
    Ok(walks)
}
