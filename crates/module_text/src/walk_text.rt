//! What walks of a sealed draft gave.
ghost use Rattle.std.specs.Prelude.{◌≡◌};
ghost use Rattle.module_text.specs.Shown.{ShowsDepths, ShowsSteady};
ghost use Rattle.module_text.specs.Words.{refusal_words};

use command::TableName;
use std::fmt;
use std::fmt::Display;
use walk::walk::{Tally, WalkRefusal};
use walks::table_walk::TableWalk;

/// How many values stand on a line.
const ON_A_LINE: usize = 16;

/// For programs, on one line, or in words.
#[derive(Clone, Copy)]
enum Form {
    Plain,
    Full,
}

impl Form {
    /// What stands in front of the value at a place.
    fn gap(self, place: usize) -> &'static str {
        match self {
            Form::Full if place % ON_A_LINE == 0 => "\n  ",
            _ => " ",
        }
    }

    /// Whether an item is steady.
    fn steady(self, steady: bool) -> &'static str {
        match (self, steady) {
            (Form::Plain, false) => "0",
            (Form::Plain, true) => "1",
            (Form::Full, false) => "no",
            (Form::Full, true) => "yes",
        }
    }
}

/// The values of a walk.
#[derive(Clone, Copy)]
enum Values<'a> {
    Depths(&'a [u32]),
    Steady(&'a [bool]),
}

// Two loops, each over a slice that is passed: its length is known there.
fn write_depths<W: fmt::Write>(
    depths: &[u32],
    form: Form,
    f: &mut fmt::Formatter<W>,
) -> fmt::Result {
    for (place, depth) in depths.iter().enumerate() {
        let gap = form.gap(place);
        write!(f, "{gap}{depth}")?;
    }
    Ok(())
}

fn write_steady<W: fmt::Write>(
    items: &[bool],
    form: Form,
    f: &mut fmt::Formatter<W>,
) -> fmt::Result {
    for (place, steady) in items.iter().enumerate() {
        let (gap, steady) = (form.gap(place), form.steady(*steady));
        write!(f, "{gap}{steady}")?;
    }
    Ok(())
}

impl Values<'_> {
    /// The reading that they are of.
    fn reading(self) -> &'static str {
        match self {
            Values::Depths(_) => "depth",
            Values::Steady(_) => "steady",
        }
    }

    fn write<W: fmt::Write>(self, form: Form, f: &mut fmt::Formatter<W>) -> fmt::Result {
        match self {
            Values::Depths(depths) => write_depths(depths, form, f),
            Values::Steady(items) => write_steady(items, form, f),
        }
    }
}

/// A table as the command line names it.
#[derive(Clone, Copy)]
struct PlainTable(TableName);

impl Display for PlainTable {
    fn fmt<W: fmt::Write>(&self, f: &mut fmt::Formatter<W>) -> fmt::Result {
        match self.0 {
            TableName::Types => f.write_str("types"),
            TableName::Filters => f.write_str("filters"),
            TableName::Functions => f.write_str("functions"),
            TableName::Globals => f.write_str("globals"),
            TableName::Function(number) => write!(f, "function:{number}"),
            TableName::EntryPoint(number) => write!(f, "entry:{number}"),
        }
    }
}

/// A table in words.
#[derive(Clone, Copy)]
struct FullTable(TableName);

impl Display for FullTable {
    fn fmt<W: fmt::Write>(&self, f: &mut fmt::Formatter<W>) -> fmt::Result {
        match self.0 {
            TableName::Types => f.write_str("types"),
            TableName::Filters => f.write_str("filters"),
            TableName::Functions => f.write_str("functions"),
            TableName::Globals => f.write_str("global expressions"),
            TableName::Function(number) => write!(f, "function {number}"),
            TableName::EntryPoint(number) => write!(f, "entry point {number}"),
        }
    }
}

/// A walk on one line, by numbers.
#[derive(Clone, Copy)]
pub struct Plain<'a> {
    table: TableName,
    tally: Tally,
    values: Values<'a>,
}

impl<'a> Plain<'a> {
    /// That by depth.
    pub fn depth(table: TableName, walk: &'a TableWalk<u32>) -> Plain<'a>
        ensures table { result.table ≡ table }
        ensures tally { result.tally ≡ walk.now.tally }
        ensures values { ShowsDepths walk.now.values.items result.values }
    {
        Plain {
            table,
            tally: walk.tally,
            values: Values::Depths(walk.values.as_slice()),
        }
    }

    /// That by which items are steady.
    pub fn steady(table: TableName, walk: &'a TableWalk<bool>) -> Plain<'a>
        ensures table { result.table ≡ table }
        ensures tally { result.tally ≡ walk.now.tally }
        ensures values { ShowsSteady walk.now.values.items result.values }
    {
        Plain {
            table,
            tally: walk.tally,
            values: Values::Steady(walk.values.as_slice()),
        }
    }
}

impl Display for Plain<'_> {
    fn fmt<W: fmt::Write>(&self, f: &mut fmt::Formatter<W>) -> fmt::Result {
        let table = PlainTable(self.table);
        let reading = self.values.reading();
        let Tally { items, takes } = self.tally;
        write!(f, "walk {table} {reading} {items} {takes}")?;
        self.values.write(Form::Plain, f)
    }
}

/// A walk in words: what it did, and the values on lines of their own.
#[derive(Clone, Copy)]
pub struct Full<'a>(pub Plain<'a>);

impl Display for Full<'_> {
    fn fmt<W: fmt::Write>(&self, f: &mut fmt::Formatter<W>) -> fmt::Result {
        let Plain {
            table,
            tally: Tally { items, takes },
            values,
        } = self.0;
        let (table, reading) = (FullTable(table), values.reading());
        write!(
            f,
            "walk of {table}, {reading}: items {items}, takes {takes}"
        )?;
        values.write(Form::Full, f)
    }
}

/// Why nothing was walked.
pub fn refusal_words(refusal: WalkRefusal) -> &'static str
    ensures { result.now ≡ refusal_words refusal }
{
    match refusal {
        WalkRefusal::NoSuchBody => "no such function or entry point",
        WalkRefusal::TooFewPlaces => "fewer places than items",
    }
}

#[cfg(test)]
mod tests {
    use super::*;
    use std::test::Fail;

    #[test]
    fn depths(rt: HostRuntime) -> Result<(), Fail> {
        let heap = rt.alloc();
        let walk = TableWalk {
            values: vec![in heap; 1; 17]?,
            tally: Tally {
                items: 17,
                takes: 0,
            },
        };
        let line = format!(in heap; "{}", Plain::depth(TableName::Function(7), &walk))?;
        assert_eq!(rt;
            line.as_str(),
            "walk function:7 depth 17 0 1 1 1 1 1 1 1 1 1 1 1 1 1 1 1 1 1"
        );
        let words = format!(in heap; "{}", Full(Plain::depth(TableName::Globals, &walk)))?;
        assert_eq!(rt;
            words.as_str(),
            "walk of global expressions, depth: items 17, takes 0\n  1 1 1 1 1 1 1 1 1 1 1 1 1 1 1 1\n  1"
        );
        Ok(())
    }

    #[test]
    fn steady_items(rt: HostRuntime) -> Result<(), Fail> {
        let heap = rt.alloc();
        let walk = TableWalk {
            values: vec![in heap; true, false]?,
            tally: Tally { items: 2, takes: 1 },
        };
        let line = format!(in heap; "{}", Plain::steady(TableName::EntryPoint(0), &walk))?;
        assert_eq!(rt; line.as_str(), "walk entry:0 steady 2 1 1 0");
        let words = format!(in heap; "{}", Full(Plain::steady(TableName::EntryPoint(0), &walk)))?;
        assert_eq!(rt;
            words.as_str(),
            "walk of entry point 0, steady: items 2, takes 1\n  yes no"
        );
        Ok(())
    }
}
