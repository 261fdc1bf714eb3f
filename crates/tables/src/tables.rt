//! The node tables of a module and of a body.
ghost use Rattle.std.specs.Prelude.{◌≡◌, ◌^◌, ◌<◌};
ghost use Rattle.arena.specs.Viewing.{viewed};
ghost use Rattle.items.specs.declared.section.Section.TheVariants.{Numbered};
ghost use Rattle.items.specs.Item.{items_left, shown_body};
ghost use Rattle.items.specs.Whole.{items_of, module_of};
ghost use Rattle.node.specs.Nodes.{operands_in_all};
ghost use Rattle.tables.specs.Tables.{types_nodes, filters_nodes, functions_nodes, expressions_nodes, inner_nodes};
ghost use Rattle.tables.specs.Entering.{nodes_left};

use crate::cursor::Cursor;
use crate::source::Source;
use arena::view::View;
use draft::state::SlotTable;
use ir::handle::Table;
use items::body::Body;
use items::items::Items;
use items::section::Section;
use node::table::NodeTable;
use std::marker::PhantomData;

/// What tells the tables apart.
pub mod markers {
    #[derive(Clone, Copy)]
    pub struct Types;

    #[derive(Clone, Copy)]
    pub struct Filters;

    #[derive(Clone, Copy)]
    pub struct Functions;

    #[derive(Clone, Copy)]
    pub struct GlobalExpressions;

    #[derive(Clone, Copy)]
    pub struct BodyExpressions;
}

/// Items as nodes.
#[derive(Clone, Copy)]
pub struct ItemTable<'a, T> {
    cursor: Cursor<'a>,
    marker: PhantomData<T>,
}

/// The types.
pub type TypeTable<'a> = ItemTable<'a, markers::Types>;

/// The nodes of diagnostic filters.
pub type FilterTable<'a> = ItemTable<'a, markers::Filters>;

/// The functions, which take those that they call.
pub type FunctionTable<'a> = ItemTable<'a, markers::Functions>;

/// The global expressions.
pub type GlobalExpressionTable<'a> = ItemTable<'a, markers::GlobalExpressions>;

/// The expressions of a body.
pub type BodyExpressionTable<'a> = ItemTable<'a, markers::BodyExpressions>;

/// The items that a table of the module numbers.
fn numbered<'a>(view: View<'a>, table: SlotTable) -> Items<'a>
    ensures { items_left result ≡ items_of (Numbered table) (viewed view.entry) }
{
    Items::between(view, Section::Numbered(table), 0, view.kept())
}

impl<'a, T> ItemTable<'a, T> {
    ghost use Rattle.tables.specs.Cursor.{table_nodes};

    /// These items, with what makes their operands.
    fn of(source: Source<'a>, items: Items<'a>) -> ItemTable<'a, T>
        requires { operands_in_all (nodes_left source items) < 2 ^ 64 }
        ensures { table_nodes result ≡ nodes_left source.entry items.entry }
    {
        ItemTable {
            cursor: Cursor::new(source, items),
            marker: PhantomData,
        }
    }
}

impl<'a> ItemTable<'a, markers::Types> {
    ghost use Rattle.tables.specs.Cursor.{table_nodes};

    /// Those of the module.
    pub fn new(view: View<'a>) -> TypeTable<'a>
        ensures { table_nodes result ≡ types_nodes (module_of (viewed view.entry)) }
    {
        ItemTable::of(
            Source::Handles(Table::Types),
            numbered(view, SlotTable::Types),
        )
    }
}

impl<'a> ItemTable<'a, markers::Filters> {
    ghost use Rattle.tables.specs.Cursor.{table_nodes};

    /// Those of the module.
    pub fn new(view: View<'a>) -> FilterTable<'a>
        ensures { table_nodes result ≡ filters_nodes (module_of (viewed view.entry)) }
    {
        ItemTable::of(
            Source::Handles(Table::Filters),
            numbered(view, SlotTable::Filters),
        )
    }
}

impl<'a> ItemTable<'a, markers::Functions> {
    ghost use Rattle.tables.specs.Cursor.{table_nodes};

    /// Those of the module.
    pub fn new(view: View<'a>) -> FunctionTable<'a>
        ensures { table_nodes result ≡ functions_nodes (module_of (viewed view.entry)) }
    {
        ItemTable::of(Source::Calls(view), numbered(view, SlotTable::Functions))
    }
}

impl<'a> ItemTable<'a, markers::GlobalExpressions> {
    ghost use Rattle.tables.specs.Cursor.{table_nodes};

    /// Those of the module.
    pub fn new(view: View<'a>) -> GlobalExpressionTable<'a>
        ensures { table_nodes result ≡ expressions_nodes (module_of (viewed view.entry)) }
    {
        ItemTable::of(
            Source::Handles(Table::Expressions),
            numbered(view, SlotTable::Expressions),
        )
    }
}

impl<'a> ItemTable<'a, markers::BodyExpressions> {
    ghost use Rattle.tables.specs.Cursor.{table_nodes};

    /// Those of a body.
    pub fn new(body: Body<'a>) -> BodyExpressionTable<'a>
        ensures { table_nodes result ≡ inner_nodes (shown_body body.entry) }
    {
        ItemTable::of(
            Source::Handles(Table::Expressions),
            body.items(Section::Numbered(SlotTable::LocalExpressions)),
        )
    }
}

impl<'a, T> NodeTable<'a> for ItemTable<'a, T> {
    ghost use Rattle.tables.specs.Cursor.{table_nodes};

    ghost nodes = { table_nodes };

    ghost few = { λ table. table.cursor.few };

    fn count(&self) -> usize {
        self.cursor.count()
    }

    fn record(&mut self, item: usize) -> Option<&'a [u8]> {
        self.cursor.record(item)
    }

    fn operand_count(&mut self, item: usize) -> Option<usize> {
        self.cursor.operand_count(item)
    }

    fn operand(&mut self, item: usize, place: usize) -> Option<usize> {
        self.cursor.operand(item, place)
    }
}
