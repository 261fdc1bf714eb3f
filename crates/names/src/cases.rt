//! The names of cases and of what they hold.
ghost use Rattle.std.specs.Prelude.{◌≡◌, length, is_some};
ghost use Rattle.std.specs.List.{slice_get};
ghost use Rattle.ir.specs.Field.{cases_of};
ghost use Rattle.names.specs.Used.{used_in};

use ir::fields::Cases;

/// The name of a case, if there is such a case.
// Beside the cases and not in them: names are for printing, and the definitions speak of words alone.
pub fn case_name(cases: Cases, byte: u8) -> Option<&'static str>
    ensures { is_some result ≡ is_some (slice_get (cases_of cases) byte) }
{
    match (cases, byte) {
        (Cases::Bool, 0) => Some("false"),
        (Cases::Bool, 1) => Some("true"),
        (Cases::ArraySize, 0) => Some("Constant"),
        (Cases::ArraySize, 1) => Some("Pending"),
        (Cases::ArraySize, 2) => Some("Dynamic"),
        (Cases::SampleLevel, 0) => Some("Auto"),
        (Cases::SampleLevel, 1) => Some("Zero"),
        (Cases::SampleLevel, 2) => Some("Exact"),
        (Cases::SampleLevel, 3) => Some("Bias"),
        (Cases::SampleLevel, 4) => Some("Gradient"),
        (Cases::ImageQuery, 0) => Some("Size"),
        (Cases::ImageQuery, 1) => Some("NumLevels"),
        (Cases::ImageQuery, 2) => Some("NumLayers"),
        (Cases::ImageQuery, 3) => Some("NumSamples"),
        (Cases::AtomicFunction, 0) => Some("Add"),
        (Cases::AtomicFunction, 1) => Some("Subtract"),
        (Cases::AtomicFunction, 2) => Some("And"),
        (Cases::AtomicFunction, 3) => Some("ExclusiveOr"),
        (Cases::AtomicFunction, 4) => Some("InclusiveOr"),
        (Cases::AtomicFunction, 5) => Some("Min"),
        (Cases::AtomicFunction, 6) => Some("Max"),
        (Cases::AtomicFunction, 7) => Some("Exchange"),
        (Cases::GatherMode, 0) => Some("BroadcastFirst"),
        (Cases::GatherMode, 1) => Some("Broadcast"),
        (Cases::GatherMode, 2) => Some("Shuffle"),
        (Cases::GatherMode, 3) => Some("ShuffleDown"),
        (Cases::GatherMode, 4) => Some("ShuffleUp"),
        (Cases::GatherMode, 5) => Some("ShuffleXor"),
        (Cases::GatherMode, 6) => Some("QuadBroadcast"),
        (Cases::GatherMode, 7) => Some("QuadSwap"),
        (Cases::RayQueryFunction, 0) => Some("Initialize"),
        (Cases::RayQueryFunction, 1) => Some("Proceed"),
        (Cases::RayQueryFunction, 2) => Some("GenerateIntersection"),
        (Cases::RayQueryFunction, 3) => Some("ConfirmIntersection"),
        (Cases::RayQueryFunction, 4) => Some("Terminate"),
        (Cases::RayPipelineFunction, 0) => Some("TraceRay"),
        (Cases::MeshInfo, 0) => Some("None"),
        (Cases::MeshInfo, 1) => Some("Some"),
        _ => None,
    }
}

/// The names of the words that a case uses: none where there is no such case.
pub fn word_names(cases: Cases, byte: u8) -> &'static [&'static str]
    ensures { length result.now ≡ used_in (slice_get (cases_of cases) byte) }
{
    match (cases, byte) {
        (Cases::ArraySize, 0) => &["length"],
        (Cases::ArraySize, 1) => &["override"],
        (Cases::SampleLevel, 2..=3) => &["level"],
        (Cases::SampleLevel, 4) => &["x", "y"],
        (Cases::ImageQuery, 0) => &["level"],
        (Cases::AtomicFunction, 7) => &["compare"],
        (Cases::GatherMode, 1..=6) => &["index"],
        (Cases::GatherMode, 7) => &["direction"],
        (Cases::RayQueryFunction, 0) => &["acceleration_structure", "descriptor"],
        (Cases::RayQueryFunction, 1) => &["result"],
        (Cases::RayQueryFunction, 2) => &["hit_t"],
        (Cases::RayPipelineFunction, 0) => &["acceleration_structure", "descriptor", "payload"],
        (Cases::MeshInfo, 1) => &[
            "topology",
            "max_vertices",
            "max_vertices_override",
            "max_primitives",
            "max_primitives_override",
            "vertex_output_type",
            "primitive_output_type",
            "output_variable",
        ],
        _ => &[],
    }
}
