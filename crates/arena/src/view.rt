//! A draft and its memory, for reading.
ghost use Rattle.std.specs.Prelude.{◌≡◌, ◌≤◌, ◌<◌, length, take, MatchOption, Some, None};
ghost use Rattle.std.specs.List.{slice_get};
ghost use Rattle.std.proofs.Props.{props};
ghost use Rattle.draft.specs.State.{state};
ghost use Rattle.draft.specs.Admitted.{image};
ghost use Rattle.arena.specs.Memory.{layout, Stands, Accepted-prop};

use crate::Draft;
use crate::home::{is_among, is_inside, table_in};
use crate::places::Places;
use crate::slot::Slot;
use ir::handle::Table;

/// Where items are numbered: in the module, or in the body of the function or entry point with that
/// number.
// Not an `Option` of a body: the module is a home like the others, with tables of its own.
#[derive(Clone, Copy)]
pub enum Home {
    Module,
    Function(u32),
    EntryPoint(u32),
}

/// A draft and its memory as the draft's last call left it, for reading.
#[derive(Clone, Copy)]
pub struct View<'a> {
    pub(crate) draft: &'a Draft,
    pub(crate) bytes: &'a [u8],
    pub(crate) slots: &'a [Slot],
    pub ghost stands: { Stands draft.now bytes.now slots.now } by { Prim.hlevel (props, Accepted-prop) },
}

impl Draft {
    ghost use Rattle.arena.specs.Viewing.{ViewOf};

    /// The draft and its memory, for reading.
    // The memory is lent here too, because C calls it so; the view holds the fact that the draft stands in it.
    pub fn view<'a>(&'a self, bytes: &'a [u8], slots: &'a [Slot]) -> View<'a>
        requires { Stands self.now bytes.now slots.now }
        ensures { ViewOf result self.now bytes.now slots.now }
    {
        View {
            draft: self,
            bytes,
            slots,
        }
    }
}

impl<'a> View<'a> {
    ghost use Rattle.arena.specs.Viewing.{viewed, finished, items_in, places_in, places_ahead, slot_table};

    /// How many records are kept.
    pub fn kept(self) -> usize
        ensures { result ≡ length (viewed self.entry) }
    {
        self.draft.counts.kept
    }

    /// Whether no function is open and no records wait.
    pub fn is_finished(self) -> bool
        ensures { result ≡ finished (state (viewed self.entry)) }
    {
        self.draft.counts.opened.is_none() && self.draft.counts.waits.pieces.is_none()
    }

    /// The slots of the kept records.
    pub(crate) fn kept_slots(self) -> &'a [Slot]
        ensures { result.now ≡ layout (viewed self.entry) }
    {
        &self.slots[..self.draft.counts.kept]
    }

    /// Where the record at this place begins, or what is kept ends.
    pub(crate) fn start_of(self, place: usize) -> usize
        ensures { result ≡ length (image (take place (viewed self.entry))) }
    {
        match self.kept_slots().get(place) {
            Some(slot) => slot.start,
            None => self.draft.counts.used,
        }
    }

    /// The slot of the kept record at this place.
    pub fn slot(self, place: usize) -> Option<Slot>
        ensures { result ≡ slice_get (layout (viewed self.entry)) place }
    {
        self.kept_slots().get(place).copied()
    }

    /// The kept record at this place.
    pub fn record(self, place: usize) -> Option<&'a [u8]>
        ensures { MatchOption result (slice_get (viewed self.entry) place ≡ None) (λ x. slice_get (viewed self.entry) place ≡ Some x.now) }
    {
        if place >= self.kept() {
            return None;
        }
        let start = self.start_of(place);
        let end = self.start_of(place + 1);
        Some(&self.bytes[start..end])
    }

    /// The places of the items of a table of this home, in the order of their numbers.
    // Home and table, here and below, are no struct: it would be made for each call only to be taken apart here.
    fn places(self, home: Home, table: Table) -> Places<'a>
        ensures { places_ahead result ≡ places_in home table (state (viewed self.entry)) }
    {
        Places {
            home,
            table: table_in(home, table),
            inside: false,
            slots: self.kept_slots().iter().enumerate(),
        }
    }

    /// The place of the item with this number in a table of this home.
    pub fn position(self, home: Home, table: Table, number: u32) -> Option<usize>
        ensures { result ≡ slice_get (places_in home table (state (viewed self.entry))) number }
    {
        self.places(home, table).nth(number as usize)
    }

    /// How many items a table of this home has.
    // Not the count of `places`, which took one and a half times as long for a table of the module.
    pub fn count(self, home: Home, table: Table) -> usize
        ensures { result ≡ length (items_in home table (state (viewed self.entry))) }
    {
        let wanted = table_in(home, table);
        let mut inside = false;
        let mut count = 0;
        for slot in self.kept_slots() {
            inside = is_inside(home, inside, *slot);
            if inside && is_among(wanted, *slot) {
                count += 1;
            }
        }
        count
    }
}
