//! The brackets that are open.
ghost use Rattle.std.specs.Prelude.{◌≡◌, ◌<◌, ◌≤◌, true, false, [], length, Some};
ghost use Rattle.draft.specs.State.{deepens};
ghost use Rattle.draft.specs.Counting.{stack_of, top, stacked};
ghost use Rattle.draft.specs.Stacking.{Turns};

use crate::manner::Turn;
use crate::state::Bracket;

/// The open brackets, the innermost last; free places hold a filler.
// An array and a depth: a draft gives its `Counts` by value to callers that put afterwards, and an `ArrayVec` is not `Copy`.
// No ghost field holds `depth ≤ 64`: `stack_of` and `stacked` are total, and would have to be passed its proof.
#[derive(Clone, Copy)]
pub struct Brackets {
    pub places: [Bracket; 64],
    pub depth: usize,
}

impl Brackets {
    /// Those of no records.
    pub(crate) fn new() -> Brackets
        ensures { result ≡ stack_of [] }
    {
        Brackets {
            places: [Bracket::Block; 64],
            depth: 0,
        }
    }

    /// The innermost bracket.
    pub(crate) fn innermost(&self) -> Option<Bracket>
        requires { self.now.depth ≤ 64 }
        ensures { result ≡ top self.now }
    {
        self.places[..self.depth].last().copied()
    }

    /// Whether the turn would open a 65th bracket.
    pub(crate) fn is_full(&self, turn: Turn) -> bool
        ensures { result ≡ deepens (Some turn) self.now.depth }
    {
        match turn {
            Turn::Push(_) => 64 <= self.depth,
            _ => false,
        }
    }

    /// Pushes, swaps or pops the innermost bracket.
    pub(crate) fn apply(&mut self, turn: Turn)
        requires { Turns self.old.depth turn }
        ensures { self.new ≡ stacked self.old turn }
    {
        let depth = self.depth;
        match turn {
            Turn::Keep => {}
            Turn::Push(bracket) => {
                self.places[depth] = bracket;
                self.depth = depth + 1;
            }
            Turn::Swap(bracket) => {
                self.places[depth - 1] = bracket;
            }
            Turn::Pop => {
                self.places[depth - 1] = Bracket::Block;
                self.depth = depth - 1;
            }
        }
    }
}
