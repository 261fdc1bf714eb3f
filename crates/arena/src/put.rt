//! Putting a record into a draft.
ghost use Rattle.std.specs.Prelude.{◌≡◌, ℕ, ◌≤◌, List, [], length, Ok};
ghost use Rattle.draft.specs.State.{state, table_of};
ghost use Rattle.draft.specs.Counting.{counts_of, freed};
ghost use Rattle.draft.specs.Admitted.{admitted};
ghost use Rattle.arena.specs.declared.slot.Slot.{Slot as AnySlot};
ghost use Rattle.arena.specs.Put.{has_room, added, put_def};
ghost use Rattle.arena.specs.Memory.{Stands, records, Free, KeptAs};
ghost use Rattle.laws.specs.Lawful.{Lawful};

use crate::Draft;
use crate::answer::item;
use crate::slot::Slot;
use draft::behaviour::{manner, table_in};
use draft::counts::{Counts, Waiting};
use draft::refusal::Refusal;
use draft::state::SlotTable;
use ir::handle::Handle;
use ir::kinds::Kind;

impl Draft {
    /// A draft that has kept nothing, whatever the memory holds.
    // Its facts, and those of `counts`, are of any memory: it is lent on each call, because C calls it so.
    pub fn new() -> Draft
        ensures stands { (bytes : List ℕ) (slots : List AnySlot) → Stands result bytes slots }
        ensures empty { (bytes : List ℕ) (slots : List AnySlot) → records result bytes slots ≡ [] }
    {
        Draft {
            counts: Counts::new(),
        }
    }

    /// What is counted of its records.
    pub fn counts(&self) -> Counts
        ensures value { result ≡ self.now.counts }
        ensures counted { (bytes : List ℕ) (slots : List AnySlot) → Stands self.now bytes slots → result ≡ counts_of (state (records self.now bytes slots)) }
    {
        self.counts
    }

    /// Whether one more record fits into so many bytes and slots.
    fn has_room(&self, room: usize, places: usize, size: usize, number: u32) -> bool
        requires { self.now.counts.used ≤ room }
        ensures { result ≡ has_room room places self.now.counts.used self.now.counts.kept size number }
    {
        size <= room - self.counts.used && self.counts.kept < places && number < u32::MAX
    }

    /// Takes back what waits, which begins at this byte.
    fn free(&mut self, start: usize)
        requires { self.old.counts.waits.count ≤ self.old.counts.kept }
        ensures { self.new.counts ≡ freed self.old.counts start }
    {
        self.counts.kept -= self.counts.waiting();
        self.counts.used = start;
        self.counts.waits = Waiting {
            pieces: None,
            count: 0,
        };
    }

    /// Keeps the record as the last one, where there is room.
    // Lent what put is lent, and writes it.
    fn append(
        &mut self,
        bytes: &mut [u8],
        slots: &mut [Slot],
        record: &[u8],
        kind: Kind,
    ) -> Result<Option<Handle>, Refusal>
        requires stands { Stands self.old bytes.old slots.old }
        requires sound { admitted (state (records self.old bytes.old slots.old)) «record».now ≡ Ok kind }
        ensures { KeptAs (added (length bytes.old) (length slots.old) (records self.old bytes.old slots.old) «record».now (table_of (state (records self.old bytes.old slots.old)) kind)) result self.old bytes.old slots.old self.new bytes.new slots.new }
    {
        let ways = manner(kind);
        let table = table_in(self.counts.opened, ways.table);
        let number = self.counts.lengths.next(table);
        if !self.has_room(bytes.len(), slots.len(), record.len(), number) {
            return Err(Refusal::Full);
        }
        let start = self.counts.used;
        bytes[start..start + record.len()].copy_from_slice(record);
        slots[self.counts.kept] = Slot {
            start,
            table,
            number,
        };
        self.counts.advance(record.len(), ways);
        Ok(item(table, number))
    }

    /// Puts a record: the item that it is, or the refusal.
    // The draft holds no memory: bytes and slots are lent on each call, because C calls it so.
    pub fn put(
        &mut self,
        bytes: &mut [u8],
        slots: &mut [Slot],
        record: &[u8],
    ) -> Result<Option<Handle>, Refusal>
        requires { Stands self.old bytes.old slots.old }
        ensures kept { KeptAs (put_def (length bytes.old) (length slots.old) (records self.old bytes.old slots.old) «record».now) result self.old bytes.old slots.old self.new bytes.new slots.new }
        ensures free { Free self.new bytes.new slots.new }
        ensures lawful { Lawful (records self.new bytes.new slots.new) }
    {
        let kind = self.counts.admit(record)?;
        if let SlotTable::Types = manner(kind).table {
            let view = self.view(bytes, slots);
            if let Some(number) = view.find(record) {
                let start = view.waiting_start();
                self.free(start);
                return Ok(item(SlotTable::Types, number));
            }
        }
        self.append(bytes, slots, record, kind)
    }
}
