//! A draft with memory of its own.
mod growing;

ghost use Rattle.std.proofs.Props.{props};
ghost use Rattle.arena.specs.Memory.{Stands, Accepted-prop};

use arena::Draft;
use arena::slot::Slot;

/// A draft with its bytes and slots, which always hold its records.
#[derive(Drop)]
pub struct OwnedDraft {
    bytes: Vec<u8>,
    slots: Vec<Slot>,
    draft: Draft,
    ghost stands: { Stands draft bytes.items slots.items } by { Prim.hlevel (props, Accepted-prop) },
}
