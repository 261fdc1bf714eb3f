//! Which items are steady, by numbers.
ghost use Rattle.image_walks.specs.Flags.{flags};

use records::image::Record;
use walk::reading::Reading;
use walk::steady::Steady;

/// 1 for an item that is steady, and 0 for any other: lent memory that may hold any byte has no room for a `bool`.
#[derive(Clone, Copy)]
pub struct Flags;

impl Reading for Flags {
    type Running = bool;

    type Value = u8;

    ghost steps = { λ _. flags };

    fn start(&self, record: Record<'_>) -> bool {
        Steady.start(record)
    }

    fn take(&self, so_far: bool, value: &u8) -> bool {
        so_far && *value == 1
    }

    fn finish(&self, all: bool) -> u8 {
        u8::from(all)
    }
}
