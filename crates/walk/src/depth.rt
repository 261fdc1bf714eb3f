//! How deep items lie.
ghost use Rattle.walk.specs.Readings.{depth};

use crate::reading::Reading;
use records::image::Record;

/// One more than the depth of the deepest operand, up to 4,294,967,295.
#[derive(Clone, Copy)]
pub struct Depth;

impl Reading for Depth {
    type Running = u32;

    type Value = u32;

    ghost steps = { λ _. depth };

    fn start(&self, _record: Record<'_>) -> u32 {
        0
    }

    fn take(&self, deepest: u32, value: &u32) -> u32 {
        deepest.max(*value)
    }

    fn finish(&self, deepest: u32) -> u32 {
        deepest.saturating_add(1)
    }
}
