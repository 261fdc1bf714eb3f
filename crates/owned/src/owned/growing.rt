//! Making, growing and reading an owned draft.
ghost use Rattle.std.specs.Prelude.{◌≡◌, ◌+◌, ◌-◌, ◌≤◌, true, [], ◌++◌, length, replicate, is_ok, vec_len};
ghost use Rattle.draft.specs.Admitted.{image};
ghost use Rattle.arena.specs.Memory.{Stands, records};
ghost use Rattle.arena.specs.Viewing.{viewed};
ghost use Rattle.owned.specs.Kept.{kept_in};
ghost use Rattle.owned.specs.Putting.{put_all, PutOrNone};

use super::OwnedDraft;
use crate::denial::Denial;
use arena::Draft;
use arena::slot::Slot;
use arena::view::View;
use ir::handle::Handle;
use std::alloc::{AllocError, Global};

impl OwnedDraft {
    /// A draft that has kept nothing and holds no memory yet.
    pub fn new(heap: Global) -> OwnedDraft
        ensures { kept_in result ≡ [] }
    {
        OwnedDraft {
            bytes: Vec::new(heap),
            slots: Vec::new(heap),
            draft: Draft::new(),
        }
    }

    /// The draft, and the memory that it stands in, for reading.
    // The three beside `view`: put and view of a draft are lent its memory on each call.
    pub fn parts(&self) -> (&Draft, &[u8], &[Slot])
        ensures stands { Stands result.0.now result.1.now result.2.now }
        ensures keeps { records result.0.now result.1.now result.2.now ≡ kept_in self.now }
    {
        (&self.draft, self.bytes.as_slice(), self.slots.as_slice())
    }

    /// The draft and its memory, for reading.
    pub fn view(&self) -> View<'_>
        ensures { viewed result ≡ kept_in self.now }
    {
        self.draft
            .view(self.bytes.as_slice(), self.slots.as_slice())
    }

    /// Makes room for one more record of this size, and keeps the records.
    fn make_room(&mut self, size: usize) -> Result<(), AllocError>
        ensures keeps { kept_in self.new ≡ kept_in self.old }
        ensures bytes { is_ok result ≡ true → length (image (kept_in self.old)) + size ≤ vec_len self.new.bytes }
        ensures slots { is_ok result ≡ true → length (kept_in self.old) + 1 ≤ vec_len self.new.slots }
    {
        let counts = self.draft.counts();
        grow(&mut self.bytes, counts.used.saturating_add(size), 0)?;
        grow(&mut self.slots, counts.kept + 1, Slot::EMPTY)
    }

    /// Puts a record, in as much memory as it takes: the item that it is, or why it is not kept.
    pub fn put(&mut self, record: &[u8]) -> Result<Option<Handle>, Denial>
        ensures { PutOrNone (put_all (kept_in self.old) «record».now) result (kept_in self.old) (kept_in self.new) }
    {
        self.make_room(record.len())?;
        let answer = self.draft.put(self.bytes.as_mut_slice(), self.slots.as_mut_slice(), record)?;
        Ok(answer)
    }
}

/// Where there are fewer elements than are needed, appends copies of the filler: at least as many as
/// are missing, and as there are, so that growing one by one takes linear time.
// Filled and not reserved: put is lent slices.
fn grow<T: Copy>(items: &mut Vec<T>, needed: usize, filler: T) -> Result<(), AllocError>
    ensures added { items.new.items ≡ items.old.items ++ replicate (vec_len items.new - vec_len items.old) filler }
    ensures enough { is_ok result ≡ true → needed ≤ vec_len items.new }
{
    let len = items.len();
    if needed <= len {
        return Ok(());
    }
    items.resize(needed.max(len.saturating_mul(2)), filler)
}
