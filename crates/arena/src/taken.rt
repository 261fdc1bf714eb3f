//! What a record takes.
ghost use Rattle.std.specs.Prelude.{◌≡◌, length, take};
ghost use Rattle.draft.specs.State.{state};
ghost use Rattle.draft.specs.Admitted.{image};
ghost use Rattle.arena.specs.Viewing.{viewed};

use crate::view::View;
use draft::state::SlotTable;

impl<'a> View<'a> {
    /// How many records wait before the record at this place.
    fn waiting_count(self, place: usize) -> usize
        ensures { result ≡ length (state (take place (viewed self.entry))).waiting }
    {
        let kept = self.kept_slots();
        let end = place.min(kept.len());
        kept[..end]
            .iter()
            .rev()
            .take_while(|slot| slot.table == SlotTable::Taken)
            .count()
    }

    /// What waits before the record at this place, as one block of bytes: what that record takes, if it
    /// takes any.
    pub fn waiting_at(self, place: usize) -> &'a [u8]
        ensures { result.now ≡ image (state (take place (viewed self.entry))).waiting }
    {
        let end = place.min(self.kept());
        let start = self.start_of(end - self.waiting_count(end));
        let stop = self.start_of(end);
        &self.bytes[start..stop]
    }
}
