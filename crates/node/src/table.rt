//! What every node table answers.
ghost use Rattle.std.specs.Prelude.{◌≡◌, ◌^◌, ◌<◌, List, length, Some, None, MatchOption};
ghost use Rattle.std.specs.List.{slice_get};
ghost use Rattle.std.specs.Option.{option_map};
ghost use Rattle.node.specs.Nodes.{Node, operand_of, operands_at, operands_in_all};

/// Items that are numbered from 0, each with its record and the numbers of the items that it takes, its
/// operands.
// The calls move a cursor: a table keeps where it last looked, and its nodes stay the same.
pub trait NodeTable<'a> {
    ghost nodes: { Self → List Node };

    // So few that a `usize` counts them all.
    ghost few: { (table : Self) → operands_in_all (nodes table) < 2 ^ 64 };

    /// How many items it has.
    fn count(&self) -> usize
        ensures { result ≡ length (nodes self.now) };

    /// The record of an item, or none past the last.
    fn record(&mut self, item: usize) -> Option<&'a [u8]>
        ensures answer { MatchOption result (slice_get (nodes self.old) item ≡ None) (λ r. option_map (λ n. n.bytes) (slice_get (nodes self.old) item) ≡ Some r.now) }
        ensures same { nodes self.new ≡ nodes self.old };

    /// How many operands an item has, or none past the last item.
    fn operand_count(&mut self, item: usize) -> Option<usize>
        ensures answer { result ≡ option_map (λ n. length n.operands) (slice_get (nodes self.old) item) }
        ensures same { nodes self.new ≡ nodes self.old };

    /// The operand of an item at a place, or none past its last and past the last item.
    fn operand(&mut self, item: usize, place: usize) -> Option<usize>
        ensures answer { result ≡ operand_of (nodes self.old) item place }
        ensures same { nodes self.new ≡ nodes self.old };
}
