//! How the records of each kind behave.
ghost use Rattle.std.specs.Prelude.{◌≡◌, Some, None};
ghost use Rattle.draft.specs.Manner.{statement_motion, outside_as, inside_as, waiting_as, taking_as, manner_of, turn_of};
ghost use Rattle.draft.specs.State.{meets, on_side, open_after, table_in};

use crate::manner::{Manner, Motion, Side, Turn};
use crate::state::{BodyKind, Bracket, Pieces, SlotTable};
use ir::kinds::{Expression, Kind, Statement, TypeInner};

/// What a record takes: a Struct members, a Compose and a Call operands.
fn takes(kind: Kind) -> Option<Pieces>
    ensures { result ≡ (manner_of kind).takes }
{
    match kind {
        Kind::Type(TypeInner::Struct) => Some(Pieces::Members),
        Kind::Expression(Expression::Compose) | Kind::Statement(Statement::Call) => {
            Some(Pieces::Operands)
        }
        _ => None,
    }
}

fn statement_motion(statement: Statement) -> Motion
    ensures { result ≡ statement_motion statement }
{
    match statement {
        Statement::Block => Motion::Enter(Bracket::Block),
        Statement::If => Motion::Enter(Bracket::Accept),
        Statement::Switch => Motion::Enter(Bracket::Switch),
        Statement::Loop => Motion::Enter(Bracket::Body),
        _ => Motion::Statement,
    }
}

// Four constructors: each sets what is the same for its records, and takes the rest.

/// A record that stands outside of bodies, where nothing waits.
fn outside(motion: Motion, table: SlotTable) -> Manner
    ensures { result ≡ outside_as None motion table }
{
    Manner {
        side: Side::Outside,
        joins: None,
        takes: None,
        motion,
        table,
    }
}

/// A record that stands in a body.
fn inside(takes: Option<Pieces>, motion: Motion, table: SlotTable) -> Manner
    ensures { result ≡ inside_as takes motion table }
{
    Manner {
        side: Side::Inside,
        joins: None,
        takes,
        motion,
        table,
    }
}

/// A record that waits for its taker.
fn waiting(side: Side, joins: Pieces) -> Manner
    ensures { result ≡ waiting_as side (Some joins) }
{
    Manner {
        side,
        joins: Some(joins),
        takes: None,
        motion: Motion::Stay,
        table: SlotTable::Taken,
    }
}

/// A type or an expression.
fn taking(side: Side, takes: Option<Pieces>, table: SlotTable) -> Manner
    ensures { result ≡ taking_as side takes table }
{
    Manner {
        side,
        joins: None,
        takes,
        motion: Motion::Stay,
        table,
    }
}

/// How the records of a kind behave.
pub fn manner(kind: Kind) -> Manner
    ensures { result ≡ manner_of kind }
{
    let stay = Motion::Stay;
    let none = SlotTable::Unnumbered;
    match kind {
        Kind::Member => waiting(Side::Outside, Pieces::Members),
        Kind::Operand => waiting(Side::Anywhere, Pieces::Operands),
        Kind::Override => outside(stay, SlotTable::Overrides),
        Kind::Constant => outside(stay, SlotTable::Constants),
        Kind::GlobalVariable => outside(stay, SlotTable::GlobalVariables),
        Kind::SpecialTypes | Kind::Predeclared | Kind::Leaf => outside(stay, none),
        Kind::Filter => outside(stay, SlotTable::Filters),
        Kind::Function => outside(
            Motion::Begin(Some(BodyKind::Function)),
            SlotTable::Functions,
        ),
        Kind::EntryPoint => outside(
            Motion::Begin(Some(BodyKind::EntryPoint)),
            SlotTable::EntryPoints,
        ),
        Kind::FunctionArgument | Kind::FunctionResult | Kind::Named => inside(None, stay, none),
        Kind::LocalVariable => inside(None, stay, SlotTable::LocalVariables),
        Kind::Type(_) => taking(Side::Outside, takes(kind), SlotTable::Types),
        Kind::EndFunction => inside(None, Motion::Finish, none),
        Kind::Expression(_) => taking(Side::Anywhere, takes(kind), SlotTable::Expressions),
        Kind::Statement(statement) => inside(takes(kind), statement_motion(statement), none),
        Kind::End => inside(None, Motion::End, none),
        Kind::EndLoop => inside(None, Motion::EndLoop, none),
        Kind::Case => inside(None, Motion::Case, none),
        Kind::EndSwitch => inside(None, Motion::EndSwitch, none),
    }
}

/// What becomes of the innermost bracket, where the record fits it.
pub(crate) fn turn(innermost: Option<Bracket>, motion: Motion) -> Option<Turn>
    ensures { result ≡ turn_of innermost motion }
{
    match (innermost, motion) {
        (_, Motion::Stay | Motion::Begin(_)) => Some(Turn::Keep),
        (None, Motion::Finish) => Some(Turn::Keep),
        (Some(Bracket::Switch), Motion::Case) => Some(Turn::Push(Bracket::Case)),
        (Some(Bracket::Switch), Motion::EndSwitch) => Some(Turn::Pop),
        (Some(Bracket::Switch), _) => None,
        (_, Motion::Statement) => Some(Turn::Keep),
        (_, Motion::Enter(bracket)) => Some(Turn::Push(bracket)),
        (Some(Bracket::Accept), Motion::End) => Some(Turn::Swap(Bracket::Reject)),
        (Some(Bracket::Body), Motion::End) => Some(Turn::Swap(Bracket::Continuing)),
        (Some(Bracket::Block | Bracket::Reject | Bracket::Case), Motion::End) => Some(Turn::Pop),
        (Some(Bracket::Continuing), Motion::EndLoop) => Some(Turn::Pop),
        _ => None,
    }
}

/// Whether a record joins or takes what waits.
pub(crate) fn meets_what_waits(waits: Option<Pieces>, manner: Manner) -> bool
    ensures { result ≡ meets waits manner }
{
    waits.is_none() || manner.joins == waits || manner.takes == waits
}

/// Whether it may stand inside of a body, or outside of every one.
pub(crate) fn is_on_side(opened: Option<BodyKind>, side: Side) -> bool
    ensures { result ≡ on_side opened side }
{
    match side {
        Side::Outside => opened.is_none(),
        Side::Inside => opened.is_some(),
        Side::Anywhere => true,
    }
}

/// The body that is open after a record.
pub(crate) fn opened_after(motion: Motion, opened: Option<BodyKind>) -> Option<BodyKind>
    ensures { result ≡ open_after motion opened }
{
    match motion {
        Motion::Begin(begun) => begun,
        Motion::Finish => None,
        _ => opened,
    }
}

/// The table of a record: an expression's is the open body's.
pub fn table_in(opened: Option<BodyKind>, table: SlotTable) -> SlotTable
    ensures { result ≡ table_in opened table }
{
    match (opened, table) {
        (Some(_), SlotTable::Expressions) => SlotTable::LocalExpressions,
        (_, table) => table,
    }
}
