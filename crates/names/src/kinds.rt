//! The names of the fields of each kind as naga has them, for printing.
ghost use Rattle.std.specs.Prelude.{◌≡◌, length};
ghost use Rattle.ir.specs.Layout.{layout, type_layout, expression_layout, statement_layout};

use ir::kinds::{Expression, Kind, Statement, TypeInner};

/// The names of a kind's fields: as many as it has fields.
// Beside the layout and not in it: names are for printing, and the definitions speak of fields alone.
pub fn field_names(kind: Kind) -> &'static [&'static str]
    ensures { length result.now ≡ length (layout kind) }
{
    match kind {
        Kind::Member => &["name", "ty", "binding", "offset"],
        Kind::Operand => &["expression"],
        Kind::Override => &["name", "id", "ty", "init"],
        Kind::Constant => &["name", "ty", "init"],
        Kind::GlobalVariable => &[
            "name",
            "space",
            "binding",
            "ty",
            "init",
            "memory_decorations",
        ],
        Kind::SpecialTypes => &[
            "ray_desc",
            "ray_intersection",
            "ray_vertex_return",
            "external_texture_params",
            "external_texture_transfer_function",
        ],
        Kind::Predeclared => &["predeclared", "ty"],
        Kind::Filter => &["inner", "parent"],
        Kind::Leaf => &["diagnostic_filter_leaf"],
        Kind::Function => &["name", "diagnostic_filter_leaf"],
        Kind::EntryPoint => &[
            "name",
            "stage",
            "early_depth_test",
            "workgroup_size",
            "workgroup_size_overrides.0",
            "workgroup_size_overrides.1",
            "workgroup_size_overrides.2",
            "function.diagnostic_filter_leaf",
            "mesh_info",
            "task_payload",
            "incoming_ray_payload",
        ],
        Kind::FunctionArgument => &["name", "ty", "binding"],
        Kind::FunctionResult => &["ty", "binding"],
        Kind::LocalVariable => &["name", "ty", "init"],
        Kind::Type(inner) => type_fields(inner),
        Kind::Named => &["expression", "name"],
        Kind::EndFunction => &[],
        Kind::Expression(expression) => expression_fields(expression),
        Kind::Statement(statement) => statement_fields(statement),
        Kind::End => &[],
        Kind::EndLoop => &["break_if"],
        Kind::Case => &["value", "fall_through"],
        Kind::EndSwitch => &[],
    }
}

fn type_fields(inner: TypeInner) -> &'static [&'static str]
    ensures { length result.now ≡ length (type_layout inner) }
{
    match inner {
        TypeInner::Scalar => &["name", "scalar"],
        TypeInner::Vector => &["name", "size", "scalar"],
        TypeInner::Matrix => &["name", "columns", "rows", "scalar"],
        TypeInner::CooperativeMatrix => &["name", "columns", "rows", "scalar", "role"],
        TypeInner::Atomic => &["name", "scalar"],
        TypeInner::Pointer => &["name", "base", "space"],
        TypeInner::ValuePointer => &["name", "size", "scalar", "space"],
        TypeInner::Array => &["name", "base", "size", "stride"],
        TypeInner::Struct => &["name", "span"],
        TypeInner::Image => &["name", "dim", "arrayed", "class"],
        TypeInner::Sampler => &["name", "comparison"],
        TypeInner::AccelerationStructure => &["name", "vertex_return"],
        TypeInner::RayQuery => &["name", "vertex_return"],
        TypeInner::BindingArray => &["name", "base", "size"],
    }
}

fn expression_fields(expression: Expression) -> &'static [&'static str]
    ensures { length result.now ≡ length (expression_layout expression) }
{
    match expression {
        Expression::Literal => &["literal"],
        Expression::Constant => &["constant"],
        Expression::Override => &["override"],
        Expression::ZeroValue => &["ty"],
        Expression::Compose => &["ty"],
        Expression::Access => &["base", "index"],
        Expression::AccessIndex => &["base", "index"],
        Expression::Splat => &["size", "value"],
        Expression::Swizzle => &["size", "vector", "pattern"],
        Expression::FunctionArgument => &["index"],
        Expression::GlobalVariable => &["global_variable"],
        Expression::LocalVariable => &["local_variable"],
        Expression::Load => &["pointer"],
        Expression::ImageSample => &[
            "image",
            "sampler",
            "gather",
            "coordinate",
            "array_index",
            "offset",
            "level",
            "depth_ref",
            "clamp_to_edge",
        ],
        Expression::ImageLoad => &["image", "coordinate", "array_index", "sample", "level"],
        Expression::ImageQuery => &["image", "query"],
        Expression::Unary => &["op", "expr"],
        Expression::Binary => &["op", "left", "right"],
        Expression::Select => &["condition", "accept", "reject"],
        Expression::Derivative => &["axis", "ctrl", "expr"],
        Expression::Relational => &["fun", "argument"],
        Expression::Math => &["fun", "arg", "arg1", "arg2", "arg3"],
        Expression::As => &["expr", "kind", "convert"],
        Expression::CallResult => &["function"],
        Expression::AtomicResult => &["ty", "comparison"],
        Expression::WorkGroupUniformLoadResult => &["ty"],
        Expression::ArrayLength => &["array"],
        Expression::RayQueryVertexPositions => &["query", "committed"],
        Expression::RayQueryProceedResult => &[],
        Expression::RayQueryGetIntersection => &["query", "committed"],
        Expression::SubgroupBallotResult => &[],
        Expression::SubgroupOperationResult => &["ty"],
        Expression::CooperativeLoad => &[
            "columns",
            "rows",
            "role",
            "data.pointer",
            "data.stride",
            "data.row_major",
        ],
        Expression::CooperativeMultiplyAdd => &["a", "b", "c"],
    }
}

fn statement_fields(statement: Statement) -> &'static [&'static str]
    ensures { length result.now ≡ length (statement_layout statement) }
{
    match statement {
        Statement::Emit => &["start", "end"],
        Statement::Block => &[],
        Statement::If => &["condition"],
        Statement::Switch => &["selector"],
        Statement::Loop => &[],
        Statement::Break => &[],
        Statement::Continue => &[],
        Statement::Return => &["value"],
        Statement::Kill => &[],
        Statement::ControlBarrier => &["barrier"],
        Statement::MemoryBarrier => &["barrier"],
        Statement::Store => &["pointer", "value"],
        Statement::ImageStore => &["image", "coordinate", "array_index", "value"],
        Statement::Atomic => &["pointer", "fun", "value", "result"],
        Statement::ImageAtomic => &["image", "coordinate", "array_index", "fun", "value"],
        Statement::WorkGroupUniformLoad => &["pointer", "result"],
        Statement::Call => &["function", "result"],
        Statement::RayQuery => &["query", "fun"],
        Statement::RayPipelineFunction => &["fun"],
        Statement::SubgroupBallot => &["result", "predicate"],
        Statement::SubgroupGather => &["mode", "argument", "result"],
        Statement::SubgroupCollectiveOperation => &["op", "collective_op", "argument", "result"],
        Statement::CooperativeStore => &["target", "data.pointer", "data.stride", "data.row_major"],
    }
}
