//! The kept record at a place, with its slot.
ghost use Rattle.std.specs.Prelude.{◌≡◌, ◌<◌, length};
ghost use Rattle.arena.specs.Viewing.{viewed};
ghost use Rattle.items.specs.Between.{EntryAt};

use arena::slot::Slot;
use arena::view::View;
use records::image::Record;

/// A kept record and its slot.
#[derive(Clone, Copy)]
pub struct Entry<'a> {
    pub slot: Slot,
    pub record: Record<'a>,
}

/// The kept record at a place.
pub fn entry_at<'a>(view: View<'a>, place: usize) -> Entry<'a>
    requires { place < length (viewed view) }
    ensures { EntryAt (viewed view.entry) place result.slot result.«record».bytes.now }
{
    let slot = view.slot(place).unwrap();
    let bytes = view.record(place).unwrap();
    Entry {
        slot,
        record: Record { bytes },
    }
}
