//! The search for a kept type that equals another.
ghost use Rattle.std.specs.Prelude.{◌≡◌, ◌-◌, true, ◌++◌, length, take, is_ok, Decides};
ghost use Rattle.records.specs.Record.{judged};
ghost use Rattle.draft.specs.State.{state};
ghost use Rattle.draft.specs.Admitted.{image};
ghost use Rattle.arena.specs.Put.{known};
ghost use Rattle.arena.specs.Viewing.{viewed};

use crate::view::View;
use draft::state::SlotTable;

/// Whether a block is these two, one after the other.
fn is_joined(block: &[u8], front: &[u8], rest: &[u8]) -> bool
    ensures { Decides result (block.now ≡ front.now ++ rest.now) }
{
    block.split_at_checked(front.len()) == Some((front, rest))
}

impl<'a> View<'a> {
    /// Where what waits begins.
    pub(crate) fn waiting_start(self) -> usize
        ensures { result ≡ length (image (take (length (viewed self.entry) - length (state (viewed self.entry)).waiting) (viewed self.entry))) }
    {
        self.start_of(self.draft.counts.kept - self.draft.counts.waiting())
    }

    /// What waits, as one block of bytes.
    fn waiting_block(self) -> &'a [u8]
        ensures { result.now ≡ image (state (viewed self.entry)).waiting }
    {
        let start = self.waiting_start();
        let end = self.draft.counts.used;
        &self.bytes[start..end]
    }

    /// The number of the kept type that equals this one, with what it would take.
    pub(crate) fn find(self, record: &[u8]) -> Option<u32>
        requires { is_ok (judged «record».now) ≡ true }
        ensures { result ≡ known (state (viewed self.entry)) «record».now }
    {
        let waiting = self.waiting_block();
        let kept = self.kept_slots();
        // Where the block of the next type begins: the records that it took stand before it. Of the adapters
        // only `scan` hands on such a sum: the loop's body would be its closure, which changes the sum.
        let mut from = 0;
        for (place, slot) in kept.iter().enumerate() {
            let end = self.start_of(place + 1);
            match slot.table {
                SlotTable::Taken => {}
                SlotTable::Types => {
                    if is_joined(&self.bytes[from..end], waiting, record) {
                        return Some(slot.number);
                    }
                    from = end;
                }
                _ => from = end,
            }
        }
        None
    }
}
