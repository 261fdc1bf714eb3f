//! What is counted of the records that were kept.
ghost use Rattle.std.specs.Prelude.{◌≡◌, ◌+◌, ◌^◌, ◌<◌, ◌≤◌, Some};
ghost use Rattle.records.specs.Record.{judged};
ghost use Rattle.draft.specs.declared.manner.Turn.{Turn as AnyTurn};
ghost use Rattle.draft.specs.Manner.{turn_of};
ghost use Rattle.draft.specs.State.{start, table_in};
ghost use Rattle.draft.specs.Stacking.{Turns};
ghost use Rattle.draft.specs.Counting.{counted, counted_more, moved, top, counts_of, advanced};
ghost use Rattle.draft.specs.Admitted.{admitted_with};

use crate::behaviour::{is_on_side, manner, meets_what_waits, opened_after, table_in, turn};
use crate::manner::{Manner, Motion};
use crate::refusal::Refusal;
use crate::stack::Brackets;
use crate::state::{BodyKind, Pieces, SlotTable};
use ir::kinds::Kind;
use records::image::Record;

/// How many items each table has.
#[derive(Clone, Copy, PartialEq, Eq, Debug, Default)]
pub struct Lengths {
    pub types: u32,
    pub overrides: u32,
    pub constants: u32,
    pub globals: u32,
    pub filters: u32,
    pub expressions: u32,
    pub functions: u32,
    pub entries: u32,
    pub locals: u32,
    pub inner: u32,
}

/// The records that wait for their taker.
// The count stands beside the pieces and not in their `Option`: `admit` and `advance` take any count, beside no
// pieces too.
#[derive(Clone, Copy, PartialEq, Eq, Debug)]
pub struct Waiting {
    /// What the next record has to join or take, if anything.
    pub pieces: Option<Pieces>,
    /// How many they are.
    pub count: usize,
}

/// What is counted of the records that were kept, and what the next one meets.
#[derive(Clone, Copy)]
pub struct Counts {
    /// How many records, and how many bytes.
    pub kept: usize,
    pub used: usize,
    pub lengths: Lengths,
    pub opened: Option<BodyKind>,
    pub brackets: Brackets,
    pub waits: Waiting,
}

impl Lengths {
    /// The number of the next item of a table.
    pub fn next(&self, table: SlotTable) -> u32
        ensures { result ≡ counted self.now table }
    {
        match table {
            SlotTable::Unnumbered | SlotTable::Taken => 0,
            SlotTable::Types => self.types,
            SlotTable::Overrides => self.overrides,
            SlotTable::Constants => self.constants,
            SlotTable::GlobalVariables => self.globals,
            SlotTable::Filters => self.filters,
            SlotTable::Expressions => self.expressions,
            SlotTable::Functions => self.functions,
            SlotTable::EntryPoints => self.entries,
            SlotTable::LocalVariables => self.locals,
            SlotTable::LocalExpressions => self.inner,
        }
    }

    /// Counts one more item.
    // A match beside that of `next`: what lends a count to be written cannot serve `next`, which reads through a `&`.
    pub fn add(&mut self, table: SlotTable)
        requires { counted self.old table + 1 < 2 ^ 32 }
        ensures { self.new ≡ counted_more self.old table }
    {
        match table {
            SlotTable::Unnumbered | SlotTable::Taken => {}
            SlotTable::Types => self.types += 1,
            SlotTable::Overrides => self.overrides += 1,
            SlotTable::Constants => self.constants += 1,
            SlotTable::GlobalVariables => self.globals += 1,
            SlotTable::Filters => self.filters += 1,
            SlotTable::Expressions => self.expressions += 1,
            SlotTable::Functions => self.functions += 1,
            SlotTable::EntryPoints => self.entries += 1,
            SlotTable::LocalVariables => self.locals += 1,
            SlotTable::LocalExpressions => self.inner += 1,
        }
    }

    /// Begins or ends the tables of a body.
    pub fn pass(&mut self, motion: Motion)
        ensures { self.new ≡ moved self.old motion }
    {
        match motion {
            Motion::Begin(_) | Motion::Finish => {
                self.locals = 0;
                self.inner = 0;
            }
            _ => {}
        }
    }
}

impl Counts {
    /// Those of no records.
    pub fn new() -> Counts
        ensures { result ≡ counts_of start }
    {
        Counts {
            kept: 0,
            used: 0,
            lengths: Lengths::default(),
            opened: None,
            brackets: Brackets::new(),
            waits: Waiting {
                pieces: None,
                count: 0,
            },
        }
    }

    /// How many records wait.
    pub fn waiting(&self) -> usize
        ensures { result ≡ self.now.waits.count }
    {
        self.waits.count
    }

    /// The kind of a record that may come next, or why it may not.
    pub fn admit(&self, bytes: &[u8]) -> Result<Kind, Refusal>
        requires { self.now.brackets.depth ≤ 64 }
        ensures { result ≡ admitted_with self.now.waits.pieces self.now.opened (top self.now.brackets) self.now.brackets.depth (judged bytes.now) }
    {
        let kind = (Record { bytes }).judge()?;
        let ways = manner(kind);
        if !meets_what_waits(self.waits.pieces, ways) || !is_on_side(self.opened, ways.side) {
            return Err(Refusal::Misplaced);
        }
        match turn(self.brackets.innermost(), ways.motion) {
            None => Err(Refusal::Misplaced),
            Some(turn) if self.brackets.is_full(turn) => Err(Refusal::TooDeep),
            Some(_) => Ok(kind),
        }
    }

    /// Counts one more record of this size.
    pub fn advance(&mut self, size: usize, manner: Manner)
        requires used { self.old.used + size < 2 ^ 64 }
        requires kept { self.old.kept + 1 < 2 ^ 64 }
        requires waiting { self.old.waits.count + 1 < 2 ^ 64 }
        requires number { counted self.old.lengths (table_in self.old.opened manner.table) + 1 < 2 ^ 32 }
        requires depth { self.old.brackets.depth ≤ 64 }
        requires turns { (t : AnyTurn) → turn_of (top self.old.brackets) manner.motion ≡ Some t → Turns self.old.brackets.depth t }
        ensures { self.new ≡ advanced self.old size manner }
    {
        self.kept += 1;
        self.used += size;
        self.lengths.add(table_in(self.opened, manner.table));
        self.lengths.pass(manner.motion);
        self.opened = opened_after(manner.motion, self.opened);
        if let Some(turn) = turn(self.brackets.innermost(), manner.motion) {
            self.brackets.apply(turn);
        }
        let count = match manner.joins {
            None => 0,
            Some(_) => self.waits.count + 1,
        };
        self.waits = Waiting {
            pieces: manner.joins,
            count,
        };
    }
}
