//! What a failed test is reported as.
ghost use Rattle.std.specs.Prelude.{◌≡◌};
ghost use Rattle.rules.specs.Fault.{rule_number, kind_number, refusal_number, refusal_kind, refusal_first, refusal_second, refusal_place};

/// The rules that are tested, under the numbers of their refusals.
#[derive(Clone, Copy, PartialEq, Eq, Debug)]
pub enum Rule {
    /// A handle names an item of its table.
    Inside = 8,
    /// The item that a handle names comes before the one that holds it.
    Earlier = 9,
    /// A range of expressions is empty, or starts before its end and ends inside.
    Range = 10,
    /// A global expression is of a kind that can stand there, which only sealing tests.
    Placed = 11,
    /// As `Inside`, where only sealing tests it.
    SealedInside = 12,
    /// As `Earlier`, where only sealing tests it.
    SealedEarlier = 13,
}

impl Rule {
    /// The number of the refusal.
    // No `From` for `u8` beside it: contracts and callers name `number`, and a conversion would be a second name for it.
    pub fn number(self) -> u8
        ensures { result ≡ rule_number self }
    {
        self as u8
    }
}

/// What the numbers in a fault count.
// Beside `Table`: arguments are counted and have no table, and entry points are counted as functions.
#[derive(Clone, Copy, PartialEq, Eq, Debug)]
pub enum FaultKind {
    Type = 1,
    Constant = 2,
    Override = 3,
    GlobalVariable = 4,
    LocalVariable = 5,
    Expression = 6,
    Function = 7,
    Argument = 8,
    DiagnosticFilterNode = 9,
}

impl FaultKind {
    /// The number of the kind.
    pub fn number(self) -> u8
        ensures { result ≡ kind_number self }
    {
        self as u8
    }
}

/// A failed test: the rule, what its numbers count, the two numbers, and the place among the kept
/// records of the record under test.
// A fault is reported by five numbers (rule, kind, first, second, place), so it holds all of them for every rule.
#[derive(Clone, Copy, PartialEq, Eq, Debug)]
pub struct Fault {
    pub rule: Rule,
    pub kind: FaultKind,
    pub first: usize,
    pub second: usize,
    pub place: usize,
}

/// Why a draft is refused.
// Not an `Option<Fault>`: an unfinished draft is refused too, and no fault says why.
#[derive(Clone, Copy, PartialEq, Eq, Debug)]
pub enum Rejection {
    /// A function is open or records wait.
    Unfinished,
    Faulty(Fault),
}

impl Rejection {
    /// The number of the refusal.
    pub fn number(self) -> u8
        ensures { result ≡ refusal_number self }
    {
        match self {
            Rejection::Unfinished => 7,
            Rejection::Faulty(fault) => fault.rule.number(),
        }
    }

    /// What the numbers of a fault count, by its number; 0 where there is no fault.
    pub fn kind(self) -> u8
        ensures { result ≡ refusal_kind self }
    {
        match self {
            Rejection::Unfinished => 0,
            Rejection::Faulty(fault) => fault.kind.number(),
        }
    }

    /// The first number of a fault, or 0.
    pub fn first(self) -> usize
        ensures { result ≡ refusal_first self }
    {
        match self {
            Rejection::Unfinished => 0,
            Rejection::Faulty(fault) => fault.first,
        }
    }

    /// The second number of a fault, or 0.
    pub fn second(self) -> usize
        ensures { result ≡ refusal_second self }
    {
        match self {
            Rejection::Unfinished => 0,
            Rejection::Faulty(fault) => fault.second,
        }
    }

    /// The place of the record under test among the kept records, or 0.
    pub fn place(self) -> usize
        ensures { result ≡ refusal_place self }
    {
        match self {
            Rejection::Unfinished => 0,
            Rejection::Faulty(fault) => fault.place,
        }
    }
}
