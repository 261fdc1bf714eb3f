//! What there is to say of the behaviour of a kind of record.
use crate::state::{BodyKind, Bracket, Pieces, SlotTable};

/// Where a record may stand.
#[derive(Clone, Copy, PartialEq, Eq, Debug)]
pub enum Side {
    Outside,
    Inside,
    Anywhere,
}

/// What a record does to the open body and its brackets.
#[derive(Clone, Copy, PartialEq, Eq, Debug)]
pub enum Motion {
    Stay,
    /// From here on this body is open, or none.
    // No record begins none: the `Option` stays, for without it callers of `Counts::advance` and `Lengths::pass` could pass less.
    Begin(Option<BodyKind>),
    Finish,
    Statement,
    Enter(Bracket),
    End,
    EndLoop,
    Case,
    EndSwitch,
}

/// What becomes of the innermost bracket.
#[derive(Clone, Copy, PartialEq, Eq, Debug)]
pub enum Turn {
    Keep,
    Push(Bracket),
    Swap(Bracket),
    Pop,
}

/// How the records of a kind behave.
#[derive(Clone, Copy, PartialEq, Eq, Debug)]
pub struct Manner {
    pub side: Side,
    /// What it waits with, if it waits for its taker.
    pub joins: Option<Pieces>,
    /// What it takes, if it takes what waits.
    pub takes: Option<Pieces>,
    pub motion: Motion,
    pub table: SlotTable,
}
