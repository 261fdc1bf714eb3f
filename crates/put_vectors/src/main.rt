//! Reads scripts, one on each line: how many bytes and slots to lend, and then records in
//! hexadecimal. Puts the records into a new draft and prints for each the number of the answer, or r
//! and the number of the refusal; then how many records and bytes are kept; and for each table of the
//! module, of two functions and of an entry point how many items it has and where the first, the
//! second and the last stand.
#![tactic(auto)]

ghost use Rattle.arena.specs.Memory.{Stands};

use arena::Draft;
use arena::answer::answered_number;
use arena::slot::Slot;
use arena::view::{Home, View};
use hexadecimal::decode;
use ir::handle::Table;
use std::alloc::Global;
use std::fmt::Display;
use std::io::{BufRead, BufReader, BufWriter, Write};
use std::str::SplitWhitespace;
use std::{fmt, io};

const HOMES: [Home; 4] = [
    Home::Module,
    Home::Function(0),
    Home::Function(1),
    Home::EntryPoint(0),
];

// Listed here and not in `ir`: the order is that of the printed lookups, and nothing else goes through all tables.
const TABLES: [Table; 9] = [
    Table::Types,
    Table::Constants,
    Table::Overrides,
    Table::GlobalVariables,
    Table::LocalVariables,
    Table::Expressions,
    Table::Functions,
    Table::Filters,
    Table::EntryPoints,
];

/// How many items a table has, and where the first, the second and the last stand.
#[derive(Clone, Copy)]
struct Lookups<'a> {
    view: View<'a>,
    home: Home,
    table: Table,
}

impl Display for Lookups<'_> {
    fn fmt<W: fmt::Write>(&self, f: &mut fmt::Formatter<W>) -> fmt::Result {
        let Lookups { view, home, table } = *self;
        let count = view.count(home, table);
        write!(f, " {count}")?;
        let Ok(end) = u32::try_from(count) else {
            return Ok(());
        };
        if end > 0 {
            for number in [0, 1, end - 1, end] {
                match view.position(home, table, number) {
                    Some(place) => write!(f, ",{place}")?,
                    None => write!(f, ",-")?,
                }
            }
        }
        Ok(())
    }
}

/// The lookups in each table of each home.
#[derive(Clone, Copy)]
struct Homes<'a>(View<'a>);

impl Display for Homes<'_> {
    fn fmt<W: fmt::Write>(&self, f: &mut fmt::Formatter<W>) -> fmt::Result {
        let view = self.0;
        for home in HOMES {
            write!(f, " |")?;
            for table in TABLES {
                write!(f, "{}", Lookups { view, home, table })?;
            }
        }
        Ok(())
    }
}

// Put is lent its memory on each call, so draft, bytes and slots are parameters here too.
fn put_word<W: Write>(
    out: &mut W,
    draft: &mut Draft,
    bytes: &mut [u8],
    slots: &mut [Slot],
    record: &[u8],
) -> io::Result<()>
    requires { Stands draft.old bytes.old slots.old }
    ensures { Stands draft.new bytes.new slots.new }
{
    match draft.put(bytes, slots, record) {
        Ok(answer) => write!(out, "{} ", answered_number(answer)),
        Err(refusal) => write!(out, "r{} ", refusal.number()),
    }
}

fn run_script<W: Write>(
    out: &mut W,
    heap: Global,
    words: SplitWhitespace<'_>,
    bytes: &mut [u8],
    slots: &mut [Slot],
) -> io::Result<()> {
    let mut draft = Draft::new();
    for word in words {
        let record = decode(heap, word)?;
        put_word(out, &mut draft, bytes, slots, record.as_slice())?;
    }
    let counts = draft.counts();
    let homes = Homes(draft.view(bytes, slots));
    writeln!(out, "kept {} {}{homes}", counts.kept, counts.used)
}

/// The number that a word of a script is.
fn number(word: Option<&str>) -> usize {
    word.and_then(|word| word.parse().ok()).unwrap_or(0)
}

fn main(rt: HostRuntime) -> io::Result<()> {
    let heap = rt.alloc();
    let mut out = BufWriter::new(heap, rt.stdout())?;
    for line in BufReader::new(heap, rt.stdin())?.lines(heap) {
        let line = line?;
        let mut words = line.as_str().split_whitespace();
        let mut bytes = vec![in heap; 0u8; number(words.next())]?;
        let mut slots = vec![in heap; Slot::EMPTY; number(words.next())]?;
        run_script(
            &mut out,
            heap,
            words,
            bytes.as_mut_slice(),
            slots.as_mut_slice(),
        )?;
    }
    out.flush()
}
