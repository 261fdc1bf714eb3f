//! The number of each kind.
ghost use Rattle.std.specs.Prelude.{◌≡◌, ℕ, ◌<◌, Some, None, MatchResult};
ghost use Rattle.std.specs.List.{slice_get};
ghost use Rattle.ir.specs.Number.{kind_of, number_of, types, expressions, statements, type_case, expression_case, statement_case, second_first};

use crate::kinds::{Expression, Kind, Statement, TypeInner};

/// A number that no kind has.
#[derive(Clone, Copy, Debug, PartialEq, Eq)]
pub struct UnknownKind;

/// The case at a place of a list, counted from 0.
fn case_at<T: Copy>(cases: &[T], place: u8) -> Result<T, UnknownKind>
    ensures { MatchResult result (λ case. slice_get cases.now place ≡ Some case) (λ _. slice_get cases.now place ≡ None) }
{
    cases.get(usize::from(place)).copied().ok_or(UnknownKind)
}

impl TryFrom<u8> for Kind {
    type Error = UnknownKind;

    ghost try_from_gives = { λ byte r. MatchResult r (λ kind. kind_of byte ≡ Some kind) (λ _. kind_of byte ≡ None) };

    /// The kind that has the number `byte`.
    fn try_from(byte: u8) -> Result<Kind, UnknownKind> {
        match byte {
            1 => Ok(Kind::Member),
            2 => Ok(Kind::Operand),
            3 => Ok(Kind::Override),
            4 => Ok(Kind::Constant),
            5 => Ok(Kind::GlobalVariable),
            6 => Ok(Kind::SpecialTypes),
            7 => Ok(Kind::Predeclared),
            8 => Ok(Kind::Filter),
            9 => Ok(Kind::Leaf),
            11 => Ok(Kind::Function),
            12 => Ok(Kind::EntryPoint),
            13 => Ok(Kind::FunctionArgument),
            14 => Ok(Kind::FunctionResult),
            15 => Ok(Kind::LocalVariable),
            16..=29 => Ok(Kind::Type(case_at(&TypeInner::ALL, byte - 16)?)),
            30 => Ok(Kind::Named),
            31 => Ok(Kind::EndFunction),
            64..=97 => Ok(Kind::Expression(case_at(&Expression::ALL, byte - 64)?)),
            128..=150 => Ok(Kind::Statement(case_at(&Statement::ALL, byte - 128)?)),
            151 => Ok(Kind::End),
            152 => Ok(Kind::EndLoop),
            153 => Ok(Kind::Case),
            154 => Ok(Kind::EndSwitch),
            _ => Err(UnknownKind),
        }
    }
}

impl From<Kind> for u8 {
    ghost from_gives = { λ kind n. n ≡ number_of kind };

    fn from(kind: Kind) -> u8 {
        match kind {
            Kind::Member => 1,
            Kind::Operand => 2,
            Kind::Override => 3,
            Kind::Constant => 4,
            Kind::GlobalVariable => 5,
            Kind::SpecialTypes => 6,
            Kind::Predeclared => 7,
            Kind::Filter => 8,
            Kind::Leaf => 9,
            Kind::Function => 11,
            Kind::EntryPoint => 12,
            Kind::FunctionArgument => 13,
            Kind::FunctionResult => 14,
            Kind::LocalVariable => 15,
            Kind::Type(inner) => 16 + inner as u8,
            Kind::Named => 30,
            Kind::EndFunction => 31,
            Kind::Expression(expression) => 64 + expression as u8,
            Kind::Statement(statement) => 128 + statement as u8,
            Kind::End => 151,
            Kind::EndLoop => 152,
            Kind::Case => 153,
            Kind::EndSwitch => 154,
        }
    }
}

impl Kind {
    /// Its number: the only byte of which `try_from` makes it.
    // Beside `u8::from`, because it also promises that no other byte is a number of the kind.
    pub fn number(self) -> u8
        ensures value { result ≡ number_of self }
        ensures found { kind_of result ≡ Some self }
        ensures only { (n : ℕ) → n < 256 → kind_of n ≡ Some self → n ≡ result }
    {
        u8::from(self)
    }

    /// Whether its second field is tested before its first, and not in order of declaration.
    pub fn second_first(self) -> bool
        ensures { result ≡ second_first self }
    {
        match self {
            Kind::Statement(Statement::SubgroupBallot | Statement::SubgroupGather) => true,
            _ => false,
        }
    }
}

// No derive gives the cases of an enum as a list. By the contract of `try_from` each list `ALL` is that of
// the definition.
impl TypeInner {
    /// In order of declaration.
    const ALL: [TypeInner; 14] = [
        TypeInner::Scalar,
        TypeInner::Vector,
        TypeInner::Matrix,
        TypeInner::CooperativeMatrix,
        TypeInner::Atomic,
        TypeInner::Pointer,
        TypeInner::ValuePointer,
        TypeInner::Array,
        TypeInner::Struct,
        TypeInner::Image,
        TypeInner::Sampler,
        TypeInner::AccelerationStructure,
        TypeInner::RayQuery,
        TypeInner::BindingArray,
    ];
}

impl Expression {
    /// In order of declaration.
    const ALL: [Expression; 34] = [
        Expression::Literal,
        Expression::Constant,
        Expression::Override,
        Expression::ZeroValue,
        Expression::Compose,
        Expression::Access,
        Expression::AccessIndex,
        Expression::Splat,
        Expression::Swizzle,
        Expression::FunctionArgument,
        Expression::GlobalVariable,
        Expression::LocalVariable,
        Expression::Load,
        Expression::ImageSample,
        Expression::ImageLoad,
        Expression::ImageQuery,
        Expression::Unary,
        Expression::Binary,
        Expression::Select,
        Expression::Derivative,
        Expression::Relational,
        Expression::Math,
        Expression::As,
        Expression::CallResult,
        Expression::AtomicResult,
        Expression::WorkGroupUniformLoadResult,
        Expression::ArrayLength,
        Expression::RayQueryVertexPositions,
        Expression::RayQueryProceedResult,
        Expression::RayQueryGetIntersection,
        Expression::SubgroupBallotResult,
        Expression::SubgroupOperationResult,
        Expression::CooperativeLoad,
        Expression::CooperativeMultiplyAdd,
    ];
}

impl Statement {
    /// In order of declaration.
    const ALL: [Statement; 23] = [
        Statement::Emit,
        Statement::Block,
        Statement::If,
        Statement::Switch,
        Statement::Loop,
        Statement::Break,
        Statement::Continue,
        Statement::Return,
        Statement::Kill,
        Statement::ControlBarrier,
        Statement::MemoryBarrier,
        Statement::Store,
        Statement::ImageStore,
        Statement::Atomic,
        Statement::ImageAtomic,
        Statement::WorkGroupUniformLoad,
        Statement::Call,
        Statement::RayQuery,
        Statement::RayPipelineFunction,
        Statement::SubgroupBallot,
        Statement::SubgroupGather,
        Statement::SubgroupCollectiveOperation,
        Statement::CooperativeStore,
    ];
}
