//! Kinds, tables and handles in words, kinds as naga names them.
ghost use Rattle.std.specs.Prelude.{◌≡◌, Some};
ghost use Rattle.ir.specs.Name.{table_name, type_name, expression_name, statement_name, kind_name};

use crate::handle::{Handle, Table};
use crate::kinds::{Expression, Kind, Statement, TypeInner};
use std::fmt;

impl Table {
    /// What its handles name.
    pub fn name(self) -> &'static str
        ensures { result.now ≡ table_name self }
    {
        match self {
            Table::Types => "type",
            Table::Constants => "constant",
            Table::Overrides => "override",
            Table::GlobalVariables => "global variable",
            Table::LocalVariables => "local variable",
            Table::Expressions => "expression",
            Table::Functions => "function",
            Table::Filters => "filter",
            Table::EntryPoints => "entry point",
        }
    }
}

impl fmt::Display for Table {
    ghost output = { λ table. Some (table_name table) };

    fn fmt<W: fmt::Write>(&self, f: &mut fmt::Formatter<W>) -> fmt::Result {
        f.write_str(self.name())
    }
}

impl fmt::Display for Handle {
    fn fmt<W: fmt::Write>(&self, f: &mut fmt::Formatter<W>) -> fmt::Result {
        write!(f, "{} {}", self.table(), self.index())
    }
}

impl Kind {
    /// Its name; of a type, an expression or a statement with that in front.
    pub fn name(self) -> &'static str
        ensures { result.now ≡ kind_name self }
    {
        match self {
            Kind::Member => "StructMember",
            Kind::Operand => "Operand",
            Kind::Override => "Override",
            Kind::Constant => "Constant",
            Kind::GlobalVariable => "GlobalVariable",
            Kind::SpecialTypes => "SpecialTypes",
            Kind::Predeclared => "PredeclaredType",
            Kind::Filter => "DiagnosticFilterNode",
            Kind::Leaf => "DiagnosticFilterLeaf",
            Kind::Function => "Function",
            Kind::EntryPoint => "EntryPoint",
            Kind::FunctionArgument => "FunctionArgument",
            Kind::FunctionResult => "FunctionResult",
            Kind::LocalVariable => "LocalVariable",
            Kind::Type(inner) => inner.name(),
            Kind::Named => "NamedExpression",
            Kind::EndFunction => "EndFunction",
            Kind::Expression(expression) => expression.name(),
            Kind::Statement(statement) => statement.name(),
            Kind::End => "End",
            Kind::EndLoop => "EndLoop",
            Kind::Case => "SwitchCase",
            Kind::EndSwitch => "EndSwitch",
        }
    }
}

impl fmt::Display for Kind {
    ghost output = { λ kind. Some (kind_name kind) };

    fn fmt<W: fmt::Write>(&self, f: &mut fmt::Formatter<W>) -> fmt::Result {
        f.write_str(self.name())
    }
}

impl TypeInner {
    fn name(self) -> &'static str
        ensures { result.now ≡ type_name self }
    {
        match self {
            TypeInner::Scalar => "TypeInner::Scalar",
            TypeInner::Vector => "TypeInner::Vector",
            TypeInner::Matrix => "TypeInner::Matrix",
            TypeInner::CooperativeMatrix => "TypeInner::CooperativeMatrix",
            TypeInner::Atomic => "TypeInner::Atomic",
            TypeInner::Pointer => "TypeInner::Pointer",
            TypeInner::ValuePointer => "TypeInner::ValuePointer",
            TypeInner::Array => "TypeInner::Array",
            TypeInner::Struct => "TypeInner::Struct",
            TypeInner::Image => "TypeInner::Image",
            TypeInner::Sampler => "TypeInner::Sampler",
            TypeInner::AccelerationStructure => "TypeInner::AccelerationStructure",
            TypeInner::RayQuery => "TypeInner::RayQuery",
            TypeInner::BindingArray => "TypeInner::BindingArray",
        }
    }
}

impl Expression {
    fn name(self) -> &'static str
        ensures { result.now ≡ expression_name self }
    {
        match self {
            Expression::Literal => "Expression::Literal",
            Expression::Constant => "Expression::Constant",
            Expression::Override => "Expression::Override",
            Expression::ZeroValue => "Expression::ZeroValue",
            Expression::Compose => "Expression::Compose",
            Expression::Access => "Expression::Access",
            Expression::AccessIndex => "Expression::AccessIndex",
            Expression::Splat => "Expression::Splat",
            Expression::Swizzle => "Expression::Swizzle",
            Expression::FunctionArgument => "Expression::FunctionArgument",
            Expression::GlobalVariable => "Expression::GlobalVariable",
            Expression::LocalVariable => "Expression::LocalVariable",
            Expression::Load => "Expression::Load",
            Expression::ImageSample => "Expression::ImageSample",
            Expression::ImageLoad => "Expression::ImageLoad",
            Expression::ImageQuery => "Expression::ImageQuery",
            Expression::Unary => "Expression::Unary",
            Expression::Binary => "Expression::Binary",
            Expression::Select => "Expression::Select",
            Expression::Derivative => "Expression::Derivative",
            Expression::Relational => "Expression::Relational",
            Expression::Math => "Expression::Math",
            Expression::As => "Expression::As",
            Expression::CallResult => "Expression::CallResult",
            Expression::AtomicResult => "Expression::AtomicResult",
            Expression::WorkGroupUniformLoadResult => "Expression::WorkGroupUniformLoadResult",
            Expression::ArrayLength => "Expression::ArrayLength",
            Expression::RayQueryVertexPositions => "Expression::RayQueryVertexPositions",
            Expression::RayQueryProceedResult => "Expression::RayQueryProceedResult",
            Expression::RayQueryGetIntersection => "Expression::RayQueryGetIntersection",
            Expression::SubgroupBallotResult => "Expression::SubgroupBallotResult",
            Expression::SubgroupOperationResult => "Expression::SubgroupOperationResult",
            Expression::CooperativeLoad => "Expression::CooperativeLoad",
            Expression::CooperativeMultiplyAdd => "Expression::CooperativeMultiplyAdd",
        }
    }
}

impl Statement {
    fn name(self) -> &'static str
        ensures { result.now ≡ statement_name self }
    {
        match self {
            Statement::Emit => "Statement::Emit",
            Statement::Block => "Statement::Block",
            Statement::If => "Statement::If",
            Statement::Switch => "Statement::Switch",
            Statement::Loop => "Statement::Loop",
            Statement::Break => "Statement::Break",
            Statement::Continue => "Statement::Continue",
            Statement::Return => "Statement::Return",
            Statement::Kill => "Statement::Kill",
            Statement::ControlBarrier => "Statement::ControlBarrier",
            Statement::MemoryBarrier => "Statement::MemoryBarrier",
            Statement::Store => "Statement::Store",
            Statement::ImageStore => "Statement::ImageStore",
            Statement::Atomic => "Statement::Atomic",
            Statement::ImageAtomic => "Statement::ImageAtomic",
            Statement::WorkGroupUniformLoad => "Statement::WorkGroupUniformLoad",
            Statement::Call => "Statement::Call",
            Statement::RayQuery => "Statement::RayQuery",
            Statement::RayPipelineFunction => "Statement::RayPipelineFunction",
            Statement::SubgroupBallot => "Statement::SubgroupBallot",
            Statement::SubgroupGather => "Statement::SubgroupGather",
            Statement::SubgroupCollectiveOperation => "Statement::SubgroupCollectiveOperation",
            Statement::CooperativeStore => "Statement::CooperativeStore",
        }
    }
}
