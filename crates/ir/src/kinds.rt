//! The kinds of records, and the fields of each.
ghost use Rattle.std.specs.Prelude.{◌≡◌, ◌≤◌, length};
ghost use Rattle.ir.specs.Layout.{layout, type_layout, expression_layout, statement_layout, size_of};

use crate::fields::{Cases, Field, Word};
use crate::handle::Table;

const MARK: Field = Field::Word(Word::Mark);

const NUMBER: Field = Field::Word(Word::Number);

const FLAG: Field = Field::Case(Cases::Bool);

const TYPE: Field = Field::Word(Word::Handle(Table::Types));

const CONSTANT: Field = Field::Word(Word::Handle(Table::Constants));

const OVERRIDE: Field = Field::Word(Word::Handle(Table::Overrides));

const GLOBAL: Field = Field::Word(Word::Handle(Table::GlobalVariables));

const LOCAL: Field = Field::Word(Word::Handle(Table::LocalVariables));

const EXPRESSION: Field = Field::Word(Word::Handle(Table::Expressions));

const FUNCTION: Field = Field::Word(Word::Handle(Table::Functions));

const OPTIONAL_TYPE: Field = Field::Word(Word::Optional(Table::Types));

const OPTIONAL_GLOBAL: Field = Field::Word(Word::Optional(Table::GlobalVariables));

const OPTIONAL_EXPRESSION: Field = Field::Word(Word::Optional(Table::Expressions));

const OPTIONAL_FILTER: Field = Field::Word(Word::Optional(Table::Filters));

/// What a record says; a type, an expression and a statement have kinds of their own.
#[derive(Clone, Copy)]
pub enum Kind {
    Member,
    Operand,
    Override,
    Constant,
    GlobalVariable,
    SpecialTypes,
    Predeclared,
    Filter,
    Leaf,
    Function,
    EntryPoint,
    FunctionArgument,
    FunctionResult,
    LocalVariable,
    Type(TypeInner),
    Named,
    EndFunction,
    Expression(Expression),
    Statement(Statement),
    End,
    EndLoop,
    Case,
    EndSwitch,
}

/// In order of declaration.
#[derive(Clone, Copy)]
pub enum TypeInner {
    Scalar,
    Vector,
    Matrix,
    CooperativeMatrix,
    Atomic,
    Pointer,
    ValuePointer,
    Array,
    Struct,
    Image,
    Sampler,
    AccelerationStructure,
    RayQuery,
    BindingArray,
}

/// In order of declaration.
#[derive(Clone, Copy)]
pub enum Expression {
    Literal,
    Constant,
    Override,
    ZeroValue,
    Compose,
    Access,
    AccessIndex,
    Splat,
    Swizzle,
    FunctionArgument,
    GlobalVariable,
    LocalVariable,
    Load,
    ImageSample,
    ImageLoad,
    ImageQuery,
    Unary,
    Binary,
    Select,
    Derivative,
    Relational,
    Math,
    As,
    CallResult,
    AtomicResult,
    WorkGroupUniformLoadResult,
    ArrayLength,
    RayQueryVertexPositions,
    RayQueryProceedResult,
    RayQueryGetIntersection,
    SubgroupBallotResult,
    SubgroupOperationResult,
    CooperativeLoad,
    CooperativeMultiplyAdd,
}

/// In order of declaration.
#[derive(Clone, Copy)]
pub enum Statement {
    Emit,
    Block,
    If,
    Switch,
    Loop,
    Break,
    Continue,
    Return,
    Kill,
    ControlBarrier,
    MemoryBarrier,
    Store,
    ImageStore,
    Atomic,
    ImageAtomic,
    WorkGroupUniformLoad,
    Call,
    RayQuery,
    RayPipelineFunction,
    SubgroupBallot,
    SubgroupGather,
    SubgroupCollectiveOperation,
    CooperativeStore,
}

impl Kind {
    /// The fields of the body, in order.
    pub fn layout(self) -> &'static [Field]
        ensures fields { result.now ≡ layout self }
        ensures short { length result.now ≤ 11 }
    {
        match self {
            Kind::Member => &[MARK, TYPE, MARK, NUMBER],
            Kind::Operand => &[EXPRESSION],
            Kind::Override => &[MARK, MARK, TYPE, OPTIONAL_EXPRESSION],
            Kind::Constant => &[MARK, TYPE, EXPRESSION],
            Kind::GlobalVariable => &[MARK, MARK, MARK, TYPE, OPTIONAL_EXPRESSION, MARK],
            Kind::SpecialTypes => &[
                OPTIONAL_TYPE,
                OPTIONAL_TYPE,
                OPTIONAL_TYPE,
                OPTIONAL_TYPE,
                OPTIONAL_TYPE,
            ],
            Kind::Predeclared => &[MARK, TYPE],
            Kind::Filter => &[MARK, OPTIONAL_FILTER],
            Kind::Leaf => &[OPTIONAL_FILTER],
            Kind::Function => &[MARK, OPTIONAL_FILTER],
            Kind::EntryPoint => &[
                MARK,
                MARK,
                MARK,
                MARK,
                OPTIONAL_EXPRESSION,
                OPTIONAL_EXPRESSION,
                OPTIONAL_EXPRESSION,
                OPTIONAL_FILTER,
                Field::Case(Cases::MeshInfo),
                OPTIONAL_GLOBAL,
                OPTIONAL_GLOBAL,
            ],
            Kind::FunctionArgument => &[MARK, TYPE, MARK],
            Kind::FunctionResult => &[TYPE, MARK],
            Kind::LocalVariable => &[MARK, TYPE, OPTIONAL_EXPRESSION],
            Kind::Type(inner) => inner.layout(),
            Kind::Named => &[EXPRESSION, MARK],
            Kind::EndFunction => &[],
            Kind::Expression(expression) => expression.layout(),
            Kind::Statement(statement) => statement.layout(),
            Kind::End => &[],
            Kind::EndLoop => &[OPTIONAL_EXPRESSION],
            Kind::Case => &[MARK, FLAG],
            Kind::EndSwitch => &[],
        }
    }

    /// How many bytes the body has.
    pub fn size(self) -> usize
        ensures { result ≡ size_of (layout self) }
    {
        match self {
            Kind::Member => 16,
            Kind::Operand => 4,
            Kind::Override => 16,
            Kind::Constant => 12,
            Kind::GlobalVariable => 24,
            Kind::SpecialTypes => 20,
            Kind::Predeclared => 8,
            Kind::Filter => 8,
            Kind::Leaf => 4,
            Kind::Function => 8,
            Kind::EntryPoint => 73,
            Kind::FunctionArgument => 12,
            Kind::FunctionResult => 8,
            Kind::LocalVariable => 12,
            Kind::Type(inner) => inner.size(),
            Kind::Named => 8,
            Kind::EndFunction => 0,
            Kind::Expression(expression) => expression.size(),
            Kind::Statement(statement) => statement.size(),
            Kind::End => 0,
            Kind::EndLoop => 4,
            Kind::Case => 5,
            Kind::EndSwitch => 0,
        }
    }
}

impl TypeInner {
    /// The name, and then the fields in order of declaration.
    fn layout(self) -> &'static [Field]
        ensures { result.now ≡ type_layout self }
    {
        match self {
            TypeInner::Scalar => &[MARK, MARK],
            TypeInner::Vector => &[MARK, MARK, MARK],
            TypeInner::Matrix => &[MARK, MARK, MARK, MARK],
            TypeInner::CooperativeMatrix => &[MARK, MARK, MARK, MARK, MARK],
            TypeInner::Atomic => &[MARK, MARK],
            TypeInner::Pointer => &[MARK, TYPE, MARK],
            TypeInner::ValuePointer => &[MARK, MARK, MARK, MARK],
            TypeInner::Array => &[MARK, TYPE, Field::Case(Cases::ArraySize), NUMBER],
            TypeInner::Struct => &[MARK, NUMBER],
            TypeInner::Image => &[MARK, MARK, FLAG, MARK],
            TypeInner::Sampler => &[MARK, FLAG],
            TypeInner::AccelerationStructure => &[MARK, FLAG],
            TypeInner::RayQuery => &[MARK, FLAG],
            TypeInner::BindingArray => &[MARK, TYPE, Field::Case(Cases::ArraySize)],
        }
    }

    /// How many bytes those have.
    fn size(self) -> usize
        ensures { result ≡ size_of (type_layout self) }
    {
        match self {
            TypeInner::Scalar => 8,
            TypeInner::Vector => 12,
            TypeInner::Matrix => 16,
            TypeInner::CooperativeMatrix => 20,
            TypeInner::Atomic => 8,
            TypeInner::Pointer => 12,
            TypeInner::ValuePointer => 16,
            TypeInner::Array => 17,
            TypeInner::Struct => 8,
            TypeInner::Image => 13,
            TypeInner::Sampler => 5,
            TypeInner::AccelerationStructure => 5,
            TypeInner::RayQuery => 5,
            TypeInner::BindingArray => 13,
        }
    }
}

impl Expression {
    /// The fields in order of declaration.
    fn layout(self) -> &'static [Field]
        ensures { result.now ≡ expression_layout self }
    {
        match self {
            Expression::Literal => &[MARK],
            Expression::Constant => &[CONSTANT],
            Expression::Override => &[OVERRIDE],
            Expression::ZeroValue => &[TYPE],
            Expression::Compose => &[TYPE],
            Expression::Access => &[EXPRESSION, EXPRESSION],
            Expression::AccessIndex => &[EXPRESSION, NUMBER],
            Expression::Splat => &[MARK, EXPRESSION],
            Expression::Swizzle => &[MARK, EXPRESSION, MARK],
            Expression::FunctionArgument => &[NUMBER],
            Expression::GlobalVariable => &[GLOBAL],
            Expression::LocalVariable => &[LOCAL],
            Expression::Load => &[EXPRESSION],
            Expression::ImageSample => &[
                EXPRESSION,
                EXPRESSION,
                MARK,
                EXPRESSION,
                OPTIONAL_EXPRESSION,
                OPTIONAL_EXPRESSION,
                Field::Case(Cases::SampleLevel),
                OPTIONAL_EXPRESSION,
                FLAG,
            ],
            Expression::ImageLoad => &[
                EXPRESSION,
                EXPRESSION,
                OPTIONAL_EXPRESSION,
                OPTIONAL_EXPRESSION,
                OPTIONAL_EXPRESSION,
            ],
            Expression::ImageQuery => &[EXPRESSION, Field::Case(Cases::ImageQuery)],
            Expression::Unary => &[MARK, EXPRESSION],
            Expression::Binary => &[MARK, EXPRESSION, EXPRESSION],
            Expression::Select => &[EXPRESSION, EXPRESSION, EXPRESSION],
            Expression::Derivative => &[MARK, MARK, EXPRESSION],
            Expression::Relational => &[MARK, EXPRESSION],
            Expression::Math => &[
                MARK,
                EXPRESSION,
                OPTIONAL_EXPRESSION,
                OPTIONAL_EXPRESSION,
                OPTIONAL_EXPRESSION,
            ],
            Expression::As => &[EXPRESSION, MARK, MARK],
            Expression::CallResult => &[FUNCTION],
            Expression::AtomicResult => &[TYPE, FLAG],
            Expression::WorkGroupUniformLoadResult => &[TYPE],
            Expression::ArrayLength => &[EXPRESSION],
            Expression::RayQueryVertexPositions => &[EXPRESSION, FLAG],
            Expression::RayQueryProceedResult => &[],
            Expression::RayQueryGetIntersection => &[EXPRESSION, FLAG],
            Expression::SubgroupBallotResult => &[],
            Expression::SubgroupOperationResult => &[TYPE],
            Expression::CooperativeLoad => &[MARK, MARK, MARK, EXPRESSION, EXPRESSION, FLAG],
            Expression::CooperativeMultiplyAdd => &[EXPRESSION, EXPRESSION, EXPRESSION],
        }
    }

    /// How many bytes those have.
    fn size(self) -> usize
        ensures { result ≡ size_of (expression_layout self) }
    {
        match self {
            Expression::Literal => 4,
            Expression::Constant => 4,
            Expression::Override => 4,
            Expression::ZeroValue => 4,
            Expression::Compose => 4,
            Expression::Access => 8,
            Expression::AccessIndex => 8,
            Expression::Splat => 8,
            Expression::Swizzle => 12,
            Expression::FunctionArgument => 4,
            Expression::GlobalVariable => 4,
            Expression::LocalVariable => 4,
            Expression::Load => 4,
            Expression::ImageSample => 38,
            Expression::ImageLoad => 20,
            Expression::ImageQuery => 9,
            Expression::Unary => 8,
            Expression::Binary => 12,
            Expression::Select => 12,
            Expression::Derivative => 12,
            Expression::Relational => 8,
            Expression::Math => 20,
            Expression::As => 12,
            Expression::CallResult => 4,
            Expression::AtomicResult => 5,
            Expression::WorkGroupUniformLoadResult => 4,
            Expression::ArrayLength => 4,
            Expression::RayQueryVertexPositions => 5,
            Expression::RayQueryProceedResult => 0,
            Expression::RayQueryGetIntersection => 5,
            Expression::SubgroupBallotResult => 0,
            Expression::SubgroupOperationResult => 4,
            Expression::CooperativeLoad => 21,
            Expression::CooperativeMultiplyAdd => 12,
        }
    }
}

impl Statement {
    /// The fields in order of declaration, blocks and lists omitted.
    fn layout(self) -> &'static [Field]
        ensures { result.now ≡ statement_layout self }
    {
        match self {
            Statement::Emit => &[NUMBER, NUMBER],
            Statement::Block => &[],
            Statement::If => &[EXPRESSION],
            Statement::Switch => &[EXPRESSION],
            Statement::Loop => &[],
            Statement::Break => &[],
            Statement::Continue => &[],
            Statement::Return => &[OPTIONAL_EXPRESSION],
            Statement::Kill => &[],
            Statement::ControlBarrier => &[MARK],
            Statement::MemoryBarrier => &[MARK],
            Statement::Store => &[EXPRESSION, EXPRESSION],
            Statement::ImageStore => &[EXPRESSION, EXPRESSION, OPTIONAL_EXPRESSION, EXPRESSION],
            Statement::Atomic => &[
                EXPRESSION,
                Field::Case(Cases::AtomicFunction),
                EXPRESSION,
                OPTIONAL_EXPRESSION,
            ],
            Statement::ImageAtomic => &[
                EXPRESSION,
                EXPRESSION,
                OPTIONAL_EXPRESSION,
                Field::Case(Cases::AtomicFunction),
                EXPRESSION,
            ],
            Statement::WorkGroupUniformLoad => &[EXPRESSION, EXPRESSION],
            Statement::Call => &[FUNCTION, OPTIONAL_EXPRESSION],
            Statement::RayQuery => &[EXPRESSION, Field::Case(Cases::RayQueryFunction)],
            Statement::RayPipelineFunction => &[Field::Case(Cases::RayPipelineFunction)],
            Statement::SubgroupBallot => &[EXPRESSION, OPTIONAL_EXPRESSION],
            Statement::SubgroupGather => &[Field::Case(Cases::GatherMode), EXPRESSION, EXPRESSION],
            Statement::SubgroupCollectiveOperation => &[MARK, MARK, EXPRESSION, EXPRESSION],
            Statement::CooperativeStore => &[EXPRESSION, EXPRESSION, EXPRESSION, FLAG],
        }
    }

    /// How many bytes those have.
    fn size(self) -> usize
        ensures { result ≡ size_of (statement_layout self) }
    {
        match self {
            Statement::Emit => 8,
            Statement::Block => 0,
            Statement::If => 4,
            Statement::Switch => 4,
            Statement::Loop => 0,
            Statement::Break => 0,
            Statement::Continue => 0,
            Statement::Return => 4,
            Statement::Kill => 0,
            Statement::ControlBarrier => 4,
            Statement::MemoryBarrier => 4,
            Statement::Store => 8,
            Statement::ImageStore => 16,
            Statement::Atomic => 17,
            Statement::ImageAtomic => 21,
            Statement::WorkGroupUniformLoad => 8,
            Statement::Call => 8,
            Statement::RayQuery => 13,
            Statement::RayPipelineFunction => 13,
            Statement::SubgroupBallot => 8,
            Statement::SubgroupGather => 13,
            Statement::SubgroupCollectiveOperation => 16,
            Statement::CooperativeStore => 13,
        }
    }
}
