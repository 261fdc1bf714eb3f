//! Items by number, gone on with from where it last looked.
ghost use Rattle.std.specs.Prelude.{◌≡◌, ◌^◌, ◌<◌, ◌∷◌, [], drop, length, IfSome, Some, None, MatchOption};
ghost use Rattle.std.proofs.Props.{props};
ghost use Rattle.node.specs.Nodes.{operands_in_all};
ghost use Rattle.tables.specs.Entering.{Enters, Enters-prop, nodes_left};

use crate::entered::Entered;
use crate::source::Source;
use items::items::Items;

/// Items, what makes their operands, and the one that was last entered.
#[derive(Clone, Copy)]
pub(crate) struct Cursor<'a> {
    source: Source<'a>,
    all: Items<'a>,
    entered: Option<Entered<'a>>,
    pub(crate) ghost few: { operands_in_all (nodes_left source all) < 2 ^ 64 },
    ghost there: { IfSome entered (Enters source all) } by { Prim.hlevel (props, Enters-prop) },
}

impl<'a> Cursor<'a> {
    ghost use Rattle.std.specs.List.{slice_get};
    ghost use Rattle.std.specs.Option.{option_map};
    ghost use Rattle.node.specs.Nodes.{operand_of};
    ghost use Rattle.tables.specs.Cursor.{cursor_nodes, Found, Stays};

    /// These items, of which none is entered.
    pub(crate) fn new(source: Source<'a>, all: Items<'a>) -> Cursor<'a>
        requires { operands_in_all (nodes_left source all) < 2 ^ 64 }
        ensures { cursor_nodes result ≡ nodes_left source.entry all.entry }
    {
        Cursor {
            source,
            all,
            entered: None,
        }
    }

    /// How many there are.
    pub(crate) fn count(self) -> usize
        ensures { result ≡ length (cursor_nodes self.entry) }
    {
        self.all.count()
    }

    /// Items from which to go on to the one with a number, and how many of them come before it.
    fn before(self, number: usize) -> (Items<'a>, usize)
        ensures { drop result.1 (nodes_left self.entry.source result.0) ≡ drop number (cursor_nodes self.entry) }
    {
        match self.entered {
            Some(entered) if entered.number < number => (
                entered.later,
                number - entered.number - 1,
            ),
            _ => (self.all, number),
        }
    }

    /// The item with a number, or none past the last.
    pub(crate) fn enter(&mut self, number: usize) -> Option<Entered<'a>>
        ensures finds { Found self.old number result }
        ensures stays { Stays self.old self.new }
    {
        if let Some(entered) = self.entered
            && entered.number == number
        {
            return Some(entered);
        }
        let (mut later, skipped) = self.before(number);
        let item = later.nth(skipped)?;
        let operands = self.source.operands(item);
        let entered = Entered {
            number,
            record: item.record,
            later,
            operands,
            passed: 0,
            left: operands,
        };
        self.entered = Some(entered);
        Some(entered)
    }

    /// The record of the item with a number, or none past the last.
    pub(crate) fn record(&mut self, number: usize) -> Option<&'a [u8]>
        ensures gives { MatchOption result (slice_get (cursor_nodes self.old) number ≡ None) (λ r. option_map (λ n. n.bytes) (slice_get (cursor_nodes self.old) number) ≡ Some r.now) }
        ensures stays { Stays self.old self.new }
    {
        let entered = self.enter(number)?;
        Some(entered.record.bytes)
    }

    /// How many operands it has.
    pub(crate) fn operand_count(&mut self, number: usize) -> Option<usize>
        ensures gives { result ≡ option_map (λ n. length n.operands) (slice_get (cursor_nodes self.old) number) }
        ensures stays { Stays self.old self.new }
    {
        let entered = self.enter(number)?;
        Some(entered.operand_count())
    }

    /// The operand at a place of the item with a number, or none past its last and past the last item.
    pub(crate) fn operand(&mut self, number: usize, place: usize) -> Option<usize>
        ensures gives { result ≡ operand_of (cursor_nodes self.old) number place }
        ensures stays { Stays self.old self.new }
    {
        let mut entered = self.enter(number)?;
        let operand = entered.operand(place)?;
        self.entered = Some(entered);
        Some(operand)
    }
}
