//! A range of expressions, as an Emit statement holds it.
ghost use Rattle.std.specs.Prelude.{◌≡◌, ◌-◌};
ghost use Rattle.ir.specs.Range.{ends};

use crate::handle::{ExpressionHandle, HandleIn};

/// From `start` up to `end`, which is not in it: empty unless `start` is below `end`.
// Not the library's `Range`, which is an iterator and not `Copy`.
#[derive(Clone, Copy)]
pub struct Range {
    pub start: u32,
    pub end: u32,
}

impl Range {
    /// The first and the last expression in it, or none where it is empty.
    pub fn first_and_last(self) -> Option<(ExpressionHandle, ExpressionHandle)>
        ensures { result ≡ ends self.start self.end }
    {
        if self.start < self.end {
            Some((HandleIn::new(self.start), HandleIn::new(self.end - 1)))
        } else {
            None
        }
    }

    /// The numbers that bound it, as they were handed in.
    pub fn index_range(self) -> (u32, u32)
        ensures { result ≡ (self.start, self.end) }
    {
        (self.start, self.end)
    }

    /// How many expressions it covers.
    pub fn count(self) -> u32
        ensures { result ≡ self.end - self.start }
    {
        self.end.saturating_sub(self.start)
    }
}
