//! The records that hold the further operands of an item.
ghost use Rattle.std.specs.Prelude.{◌≡◌};
ghost use Rattle.std.specs.Iterator.{YieldsFirstBy, item_count};
ghost use Rattle.ir.specs.Number.{number_of};
ghost use Rattle.rules.specs.Kinds.{starts_with};

use ir::kinds::Kind;
use items::items::Items;
use records::image::{Record, Records};

/// The records of those items that have one kind.
#[derive(Clone, Copy)]
pub struct OfKind<'a> {
    kind: Kind,
    items: Items<'a>,
}

/// Records whose handles name operands of an item, other than its own.
#[derive(Clone, Copy)]
pub enum Others<'a> {
    /// Those that it took.
    Taken(Records<'a>),
    /// The results of calls in a body, and then the calls.
    Calls {
        results: OfKind<'a>,
        calls: OfKind<'a>,
    },
}

/// Whether a record is of this kind.
pub(crate) fn has_kind(kind: Kind, bytes: &[u8]) -> bool
    ensures { result ≡ starts_with (number_of kind) bytes.now }
{
    match bytes {
        [] => false,
        [byte, ..] => *byte == kind.number(),
    }
}

impl<'a> OfKind<'a> {
    ghost use Rattle.std.specs.Prelude.{map, filter};
    ghost use Rattle.rules.specs.Kinds.{is};
    ghost use Rattle.items.specs.Item.{items_left};
    ghost use Rattle.tables.specs.Operands.{of_kind_left};

    /// Those of these items.
    pub fn new(kind: Kind, items: Items<'a>) -> OfKind<'a>
        ensures { of_kind_left result ≡ map (λ i. i.bytes) (filter (is (number_of kind)) (items_left items.entry)) }
    {
        OfKind { kind, items }
    }
}

impl<'a> Iterator for OfKind<'a> {
    ghost use Rattle.tables.specs.Operands.{of_kind_left};

    type Item = Record<'a>;

    ghost next_gives = { YieldsFirstBy (λ r. r.bytes.now) of_kind_left };

    ghost remaining = { item_count of_kind_left };

    fn next(&mut self) -> Option<Record<'a>> {
        while let Some(item) = self.items.next() {
            if has_kind(self.kind, item.record.bytes) {
                return Some(item.record);
            }
        }
        None
    }
}

impl<'a> Iterator for Others<'a> {
    ghost use Rattle.tables.specs.Operands.{others_left};

    type Item = Record<'a>;

    ghost next_gives = { YieldsFirstBy (λ r. r.bytes.now) others_left };

    ghost remaining = { item_count others_left };

    fn next(&mut self) -> Option<Record<'a>> {
        match *self {
            Others::Taken(mut records) => {
                let record = records.next();
                *self = Others::Taken(records);
                record
            }
            Others::Calls {
                mut results,
                mut calls,
            } => {
                let record = match results.next() {
                    None => calls.next(),
                    found => found,
                };
                *self = Others::Calls { results, calls };
                record
            }
        }
    }
}
