//! The numbers that the handles of one table name.
ghost use Rattle.std.specs.Prelude.{◌≡◌, ◌^◌, ◌<◌, length};
ghost use Rattle.std.specs.Iterator.{YieldsFirst, item_count};
ghost use Rattle.ir.specs.Handle.{index_of};
ghost use Rattle.records.specs.Gathered.{handles_left};
ghost use Rattle.rules.specs.Items.{is_of, numbers};

use crate::others::{OfKind, Others};
use arena::view::View;
use draft::state::SlotTable;
use ir::handle::{Handle, Table};
use ir::kinds::{Expression, Kind, Statement};
use items::body::Body;
use items::item::Item;
use items::section::Section;
use records::handles::Handles;
use records::image::Record;

/// The numbers that the handles of one table name, in the handles of a record and then in those of other
/// records.
#[derive(Clone, Copy)]
pub struct Operands<'a> {
    table: Table,
    handles: Handles<'a>,
    others: Others<'a>,
}

/// Whether a handle is of a table.
fn is_of(table: Table, handle: Handle) -> bool
    ensures { result ≡ is_of table handle }
{
    handle.table() == table
}

/// The number of the first handle of a table, and the handles behind it are left.
fn next_number(table: Table, handles: &mut Handles<'_>) -> Option<usize>
    ensures { YieldsFirst (λ h. numbers table (handles_left h)) handles.old result handles.new }
{
    while let Some(handle) = handles.next() {
        if is_of(table, handle) {
            return Some(handle.index() as usize);
        }
    }
    None
}

impl<'a> Operands<'a> {
    ghost use Rattle.rules.specs.Items.{handles};
    ghost use Rattle.arena.specs.Viewing.{viewed};
    ghost use Rattle.items.specs.Item.{shown};
    ghost use Rattle.items.specs.Whole.{body_of};
    ghost use Rattle.tables.specs.Tables.{callees};
    ghost use Rattle.tables.specs.Operands.{operands_left};

    /// What the handles of a table name in the record of an item and in those that it took.
    pub fn of_item(table: Table, item: Item<'a>) -> Operands<'a>
        ensures gives { operands_left result ≡ numbers table (handles (shown item.entry)) }
        ensures few { length (operands_left result) < 2 ^ 64 }
    {
        Operands {
            table,
            handles: item.record.handles(),
            others: Others::Taken(item.taken),
        }
    }

    /// The functions that the calls name in the body that an item opens.
    pub(crate) fn of_calls(view: View<'a>, opener: Item<'a>) -> Operands<'a>
        ensures gives { operands_left result ≡ callees (body_of (viewed view.entry) (shown opener.entry)) }
        ensures few { length (operands_left result) < 2 ^ 64 }
    {
        let body = Body::of(view, opener);
        let expressions = body.items(Section::Numbered(SlotTable::LocalExpressions));
        let statements = body.items(Section::Kinds(128, 154));
        Operands {
            table: Table::Functions,
            handles: Record { bytes: &[] }.handles(),
            others: Others::Calls {
                results: OfKind::new(Kind::Expression(Expression::CallResult), expressions),
                calls: OfKind::new(Kind::Statement(Statement::Call), statements),
            },
        }
    }
}

impl<'a> Iterator for Operands<'a> {
    ghost use Rattle.tables.specs.Operands.{operands_left};

    type Item = usize;

    ghost next_gives = { YieldsFirst operands_left };

    ghost remaining = { item_count operands_left };

    fn next(&mut self) -> Option<usize> {
        loop {
            if let Some(number) = next_number(self.table, &mut self.handles) {
                return Some(number);
            }
            let record = self.others.next()?;
            self.handles = record.handles();
        }
    }
}
