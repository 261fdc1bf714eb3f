//! An item that is entered.
ghost use Rattle.std.specs.Prelude.{◌≡◌, ◌^◌, ◌<◌, length, drop};
ghost use Rattle.std.specs.List.{slice_get};
ghost use Rattle.tables.specs.Operands.{operands_left};

use crate::operands::Operands;
use items::items::Items;
use records::image::Record;

/// An item, the items behind it, and how far its operands are passed.
#[derive(Clone, Copy)]
pub(crate) struct Entered<'a> {
    pub(crate) number: usize,
    pub(crate) record: Record<'a>,
    pub(crate) later: Items<'a>,
    pub(crate) operands: Operands<'a>,
    pub(crate) passed: usize,
    pub(crate) left: Operands<'a>,
    ghost few: { length (operands_left operands) < 2 ^ 64 },
    ghost behind: { operands_left left ≡ drop passed (operands_left operands) },
}

impl<'a> Entered<'a> {
    ghost use Rattle.tables.specs.Entering.{Same};

    /// How many operands it has.
    pub(crate) fn operand_count(self) -> usize
        ensures { result ≡ length (operands_left self.entry.operands) }
    {
        self.operands.count()
    }

    /// Operands from which to go on to the one at a place, and how many of them come before it.
    fn before(self, place: usize) -> (Operands<'a>, usize)
        ensures { drop result.1 (operands_left result.0) ≡ drop place (operands_left self.entry.operands) }
    {
        if place < self.passed {
            (self.operands, place)
        } else {
            (self.left, place - self.passed)
        }
    }

    /// The operand at a place, or none past the last: those behind it are left.
    pub(crate) fn operand(&mut self, place: usize) -> Option<usize>
        ensures gives { result ≡ slice_get (operands_left self.old.operands) place }
        ensures same { Same self.old self.new }
    {
        let (mut left, skipped) = self.before(place);
        let operand = left.nth(skipped)?;
        self.left = left;
        self.passed = place + 1;
        Some(operand)
    }
}
