//! Which items are steady.
ghost use Rattle.std.specs.Prelude.{◌≡◌};
ghost use Rattle.walk.specs.Readings.{steady, steady_expression};

use crate::reading::Reading;
use ir::kinds::{Expression, Kind};
use records::image::Record;

/// Whether an item is of a steady kind, and all its operands are steady.
#[derive(Clone, Copy)]
pub struct Steady;

/// Whether expressions of this kind are steady where all their operands are.
fn is_steady(expression: Expression) -> bool
    ensures { result ≡ steady_expression expression }
{
    matches!(
        expression,
        Expression::Literal
            | Expression::Constant
            | Expression::ZeroValue
            | Expression::Compose
            | Expression::Access
            | Expression::AccessIndex
            | Expression::Splat
            | Expression::Swizzle
            | Expression::Unary
            | Expression::Binary
            | Expression::Select
            | Expression::Relational
            | Expression::Math
            | Expression::As
    )
}

impl Reading for Steady {
    type Running = bool;

    type Value = bool;

    ghost steps = { λ _. steady };

    fn start(&self, record: Record<'_>) -> bool {
        let [byte, ..] = record.bytes else {
            return false;
        };
        match Kind::try_from(*byte) {
            Ok(Kind::Expression(expression)) => is_steady(expression),
            _ => false,
        }
    }

    fn take(&self, so_far: bool, value: &bool) -> bool {
        so_far && *value
    }

    fn finish(&self, all: bool) -> bool {
        all
    }
}
