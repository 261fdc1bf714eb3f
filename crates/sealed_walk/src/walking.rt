//! Walks a table of a sealed draft.
ghost use Rattle.std.specs.Prelude.{◌≡◌, map, IfSome};
ghost use Rattle.std.specs.List.{slice_get};
ghost use Rattle.std.specs.Option.{option_map};
ghost use Rattle.draft.specs.State.{state};
ghost use Rattle.arena.specs.Viewing.{viewed};
ghost use Rattle.items.specs.declared.section.Section.TheVariants.{Numbered};
ghost use Rattle.items.specs.Item.{shown_body};
ghost use Rattle.items.specs.Whole.{items_of, body_of};
ghost use Rattle.tables.specs.Tables.{inner_nodes};
ghost use Rattle.walk.specs.Rule.{OperandsEarlier};
ghost use Rattle.seal.specs.Sealed.{IsSealedDraft, sealed_records};
ghost use Rattle.sealed_walk.specs.Walking.{nodes_of, WalkedAs};

use arena::view::View;
use draft::state::SlotTable;
use items::body::Body;
use items::items::Items;
use items::section::Section;
use seal::sealed::Sealed;
use tables::tables::{
    BodyExpressionTable, FilterTable, FunctionTable, GlobalExpressionTable, TypeTable,
};
use walk::reading::Reading;
use walk::walk::{Tally, WalkRefusal, walk};

/// A node table of a draft's module; of functions and entry points, the expressions of the one with a number.
#[derive(Clone, Copy)]
pub enum DraftTable {
    Types,
    Filters,
    Functions,
    GlobalExpressions,
    Function(u32),
    EntryPoint(u32),
}

/// The body that the item with a number opens, in the table of functions or of entry points.
fn numbered_body<'a>(view: View<'a>, table: SlotTable, number: u32) -> Option<Body<'a>>
    ensures { option_map shown_body result ≡ slice_get (map (body_of (viewed view.entry)) (items_of (Numbered table) (viewed view.entry))) number }
{
    let mut openers = Items::between(view, Section::Numbered(table), 0, view.kept());
    let opener = openers.nth(number as usize)?;
    Some(Body::of(view, opener))
}

/// The values of the expressions of a body, if there is one.
fn walk_body<R: Reading>(
    body: Option<Body<'_>>,
    reading: &R,
    values: &mut [R::Value],
) -> Result<Tally, WalkRefusal>
    requires { IfSome body (λ b. OperandsEarlier (inner_nodes (shown_body b))) }
    ensures { WalkedAs (R.steps reading.now) (option_map (λ b. inner_nodes (shown_body b)) body.entry) values.old values.new result }
{
    let Some(body) = body else {
        return Err(WalkRefusal::NoSuchBody);
    };
    walk(reading, &mut BodyExpressionTable::new(body), values)
}

/// The value of each item of a table of a sealed draft in the place of its number. The draft and its memory are free
/// again: to walk another table, it is sealed anew.
pub fn walk_sealed<R: Reading>(
    sealed: Sealed<'_>,
    table: DraftTable,
    reading: &R,
    values: &mut [R::Value],
) -> Result<Tally, WalkRefusal>
    requires { IsSealedDraft sealed }
    ensures { WalkedAs (R.steps reading.now) (nodes_of table (state (sealed_records sealed.entry)).built) values.old values.new result }
{
    let view = sealed.view();
    match table {
        DraftTable::Types => walk(reading, &mut TypeTable::new(view), values),
        DraftTable::Filters => walk(reading, &mut FilterTable::new(view), values),
        DraftTable::Functions => walk(reading, &mut FunctionTable::new(view), values),
        DraftTable::GlobalExpressions => {
            walk(reading, &mut GlobalExpressionTable::new(view), values)
        }
        DraftTable::Function(number) => {
            let body = numbered_body(view, SlotTable::Functions, number);
            walk_body(body, reading, values)
        }
        DraftTable::EntryPoint(number) => {
            let body = numbered_body(view, SlotTable::EntryPoints, number);
            walk_body(body, reading, values)
        }
    }
}
