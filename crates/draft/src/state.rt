//! What a draft knows of the records that it has kept.

/// The kind of a body.
#[derive(Clone, Copy, PartialEq, Eq, Debug)]
pub enum BodyKind {
    Function,
    EntryPoint,
}

/// A bracket that is open, and which of its two halves where it has two.
#[derive(Clone, Copy, PartialEq, Eq, Debug)]
pub enum Bracket {
    Block,
    Accept,
    Reject,
    Switch,
    Case,
    Body,
    Continuing,
}

/// Records that wait for their taker: the members of a Struct, or the operands of a Compose or a Call.
#[derive(Clone, Copy, PartialEq, Eq, Debug)]
pub enum Pieces {
    Members,
    Operands,
}

/// The table that numbers a record. The last two are those of the open body; a record that waits for
/// its taker is `Taken`.
// Beside `Table`: records without a number have one too, and a body's expressions are told from the module's.
#[derive(Clone, Copy, PartialEq, Eq, Debug)]
pub enum SlotTable {
    Unnumbered,
    Taken,
    Types,
    Overrides,
    Constants,
    GlobalVariables,
    Filters,
    Expressions,
    Functions,
    EntryPoints,
    LocalVariables,
    LocalExpressions,
}
