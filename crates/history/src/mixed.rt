//! Depth and steadiness in one list of calls.
ghost use Rattle.history.specs.Mixed.{mixed};

use records::image::Record;
use walk::depth::Depth;
use walk::reading::Reading;
use walk::steady::Steady;

/// One of the two readings.
#[derive(Clone, Copy)]
pub enum Mixed {
    Depth,
    Steady,
}

/// What the one or the other makes.
#[derive(Clone, Copy, PartialEq)]
pub enum Measure {
    Depth(u32),
    Steady(bool),
}

impl Reading for Mixed {
    type Running = Measure;

    type Value = Measure;

    ghost steps = { mixed };

    fn start(&self, record: Record<'_>) -> Measure {
        match self {
            Mixed::Depth => Measure::Depth(Depth.start(record)),
            Mixed::Steady => Measure::Steady(Steady.start(record)),
        }
    }

    // One walk has values of one kind only: a value of the other changes nothing.
    fn take(&self, so_far: Measure, value: &Measure) -> Measure {
        match (so_far, *value) {
            (Measure::Depth(deepest), Measure::Depth(value)) => {
                Measure::Depth(Depth.take(deepest, &value))
            }
            (Measure::Steady(all), Measure::Steady(value)) => {
                Measure::Steady(Steady.take(all, &value))
            }
            _ => so_far,
        }
    }

    fn finish(&self, so_far: Measure) -> Measure {
        match so_far {
            Measure::Depth(deepest) => Measure::Depth(Depth.finish(deepest)),
            Measure::Steady(all) => Measure::Steady(Steady.finish(all)),
        }
    }
}
