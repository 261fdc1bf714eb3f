//! How the value of an item is made.
ghost use Rattle.std.specs.Prelude.{◌≡◌};
ghost use Rattle.walk.specs.Steps.{Steps};

use records::image::Record;

/// Makes the value of an item from its record and from the values of its operands.
// No bound `Drop` on `Running`: code over any reading can only finish what it started.
pub trait Reading {
    type Running;

    type Value: Drop;

    /// What it means: each function is one of these.
    ghost steps: { Self → Steps Self.Running Self.Value };

    /// The start, from the item's record.
    fn start(&self, record: Record<'_>) -> Self::Running
        ensures { result ≡ (steps self.now).start «record».entry.bytes.now };

    /// The value of an operand is taken.
    fn take(&self, running: Self::Running, value: &Self::Value) -> Self::Running
        ensures { result ≡ (steps self.now).take running value.now };

    /// The value of the item.
    fn finish(&self, running: Self::Running) -> Self::Value
        ensures { result ≡ (steps self.now).finish running };
}
