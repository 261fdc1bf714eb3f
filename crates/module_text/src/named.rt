//! What each number names.
use arena::answer::handle_table;
use arena::view::View;
use draft::state::SlotTable;
use ir::handle::Table;
use ir::kinds::Kind;
use records::image::Record;
use std::fmt::Display;
use std::io::Write;
use std::{fmt, io};

/// What stands in front of the words of a table.
fn scope(table: SlotTable) -> &'static str {
    match table {
        SlotTable::LocalExpressions => "inner ",
        _ => "",
    }
}

/// A number, and the kept record that it names.
#[derive(Clone, Copy)]
struct Name {
    scope: &'static str,
    table: Table,
    number: u32,
    place: usize,
    kind: Kind,
}

impl Name {
    /// The number of the kept record at a place, if it has one.
    fn at(view: View<'_>, place: usize) -> Option<Name> {
        let slot = view.slot(place)?;
        let bytes = view.record(place)?;
        let (kind, _) = (Record { bytes }).parts().ok()?;
        Some(Name {
            scope: scope(slot.table),
            table: handle_table(slot.table)?,
            number: slot.number,
            place,
            kind,
        })
    }
}

impl Display for Name {
    fn fmt<W: fmt::Write>(&self, f: &mut fmt::Formatter<W>) -> fmt::Result {
        let Name {
            scope,
            table,
            number,
            place,
            kind,
        } = *self;
        write!(f, "{scope}{table} {number} is kept record {place}, {kind}")
    }
}

/// What each number of each table names, in the order of the kept records: the numbers of a body
/// follow the function or entry point that it belongs to.
// By place, which is printed.
pub fn show_names<W: Write>(out: &mut W, view: View<'_>) -> io::Result<()> {
    for name in (0..view.kept()).filter_map(|place| Name::at(view, place)) {
        writeln!(out, "{name}")?;
    }
    Ok(())
}
