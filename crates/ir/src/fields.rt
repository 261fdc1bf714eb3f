//! What a record's body is made of.
ghost use Rattle.std.specs.Prelude.{◌≡◌, ℕ, ◌+◌, ◌*◌, ◌≤◌, length, IfSome, Some, None, MatchOption};
ghost use Rattle.std.specs.List.{slice_get};
ghost use Rattle.ir.specs.Field.{cases_of, words_of, width_of, fits, handle_in};

use crate::handle::{Handle, Table};
use crate::non_max_u32::NonMaxU32;

/// What four bytes stand for, low byte first.
#[derive(Clone, Copy)]
pub enum Word {
    /// Only compared.
    Mark,
    Number,
    /// A number that is not 0.
    NonZero,
    /// A handle, never FF FF FF FF.
    Handle(Table),
    /// A handle, or FF FF FF FF for none.
    Optional(Table),
    /// FF FF FF FF.
    Unused,
}

/// The types that stand as a case byte and then as many words as the widest case has.
#[derive(Clone, Copy)]
pub enum Cases {
    Bool,
    ArraySize,
    SampleLevel,
    ImageQuery,
    AtomicFunction,
    GatherMode,
    RayQueryFunction,
    RayPipelineFunction,
    MeshInfo,
}

/// One field of a record.
#[derive(Clone, Copy)]
pub enum Field {
    Word(Word),
    Case(Cases),
}

const ABSENT: u32 = u32::MAX;

const EXPRESSION: Word = Word::Handle(Table::Expressions);

const OPTIONAL_EXPRESSION: Word = Word::Optional(Table::Expressions);

const UNUSED: Word = Word::Unused;

impl Word {
    /// Whether it may hold `number`.
    pub fn fits(self, number: u32) -> bool
        ensures { result ≡ fits self number }
    {
        match self {
            Word::Mark => true,
            Word::Number => true,
            Word::NonZero => number != 0,
            Word::Handle(_) => number != ABSENT,
            Word::Optional(_) => true,
            Word::Unused => number == ABSENT,
        }
    }

    /// The handle that it is when it holds `number`, if it is one.
    pub fn handle(self, number: u32) -> Option<Handle>
        ensures { result ≡ handle_in self number }
    {
        match self {
            Word::Handle(table) | Word::Optional(table) => {
                let index = NonMaxU32::new(number)?;
                Some(table.handle(index.get()))
            }
            Word::Mark | Word::Number | Word::NonZero | Word::Unused => None,
        }
    }
}

impl Cases {
    /// How many words follow the case byte.
    // Apart from `case`: a field is as wide where its byte is no case.
    pub fn words(self) -> usize
        ensures { result ≡ words_of self }
    {
        match self {
            Cases::Bool => 0,
            Cases::ArraySize => 1,
            Cases::SampleLevel => 2,
            Cases::ImageQuery => 1,
            Cases::AtomicFunction => 1,
            Cases::GatherMode => 1,
            Cases::RayQueryFunction => 2,
            Cases::RayPipelineFunction => 3,
            Cases::MeshInfo => 8,
        }
    }

    /// The words of a case, counted from 0 in order of declaration.
    // By the byte that a record holds: nine enums of cases would only be made to look up a row.
    pub fn case(self, byte: u8) -> Option<&'static [Word]>
        ensures row { MatchOption result (slice_get (cases_of self) byte ≡ None) (λ ws. slice_get (cases_of self) byte ≡ Some ws.now) }
        ensures few { IfSome result (λ ws. length ws.now ≤ 8) }
    {
        match (self, byte) {
            (Cases::Bool, 0..=1) => Some(&[]),
            (Cases::ArraySize, 0) => Some(&[Word::NonZero]),
            (Cases::ArraySize, 1) => Some(&[Word::Handle(Table::Overrides)]),
            (Cases::ArraySize, 2) => Some(&[UNUSED]),
            (Cases::SampleLevel, 0..=1) => Some(&[UNUSED, UNUSED]),
            (Cases::SampleLevel, 2..=3) => Some(&[EXPRESSION, UNUSED]),
            (Cases::SampleLevel, 4) => Some(&[EXPRESSION, EXPRESSION]),
            (Cases::ImageQuery, 0) => Some(&[OPTIONAL_EXPRESSION]),
            (Cases::ImageQuery, 1..=3) => Some(&[UNUSED]),
            (Cases::AtomicFunction, 0..=6) => Some(&[UNUSED]),
            (Cases::AtomicFunction, 7) => Some(&[OPTIONAL_EXPRESSION]),
            (Cases::GatherMode, 0) => Some(&[UNUSED]),
            (Cases::GatherMode, 1..=6) => Some(&[EXPRESSION]),
            (Cases::GatherMode, 7) => Some(&[Word::Mark]),
            (Cases::RayQueryFunction, 0) => Some(&[EXPRESSION, EXPRESSION]),
            (Cases::RayQueryFunction, 1..=2) => Some(&[EXPRESSION, UNUSED]),
            (Cases::RayQueryFunction, 3..=4) => Some(&[UNUSED, UNUSED]),
            (Cases::RayPipelineFunction, 0) => Some(&[EXPRESSION, EXPRESSION, EXPRESSION]),
            (Cases::MeshInfo, 0) => Some(&[
                UNUSED, UNUSED, UNUSED, UNUSED, UNUSED, UNUSED, UNUSED, UNUSED,
            ]),
            (Cases::MeshInfo, 1) => Some(&[
                Word::Mark,
                Word::Number,
                OPTIONAL_EXPRESSION,
                Word::Number,
                OPTIONAL_EXPRESSION,
                Word::Handle(Table::Types),
                Word::Handle(Table::Types),
                Word::Handle(Table::GlobalVariables),
            ]),
            _ => None,
        }
    }
}

impl Field {
    /// How many bytes it takes.
    pub fn width(self) -> usize
        ensures { result ≡ width_of self }
    {
        match self {
            Field::Word(_) => 4,
            Field::Case(cases) => 1 + 4 * cases.words(),
        }
    }
}
