//! The item that a kept record makes.
ghost use Rattle.std.specs.Prelude.{◌≡◌, ◌+◌, ◌^◌, ◌<◌, true, is_ok};
ghost use Rattle.records.specs.Record.{judged};

use records::image::{Record, Records};

/// A record, its place among the kept ones, and the records that it took.
#[derive(Clone, Copy)]
pub struct Item<'a> {
    pub place: usize,
    pub record: Record<'a>,
    pub taken: Records<'a>,
    pub ghost fits: { place + 1 < 2 ^ 64 },
    pub ghost sound: { is_ok (judged «record».bytes.now) ≡ true },
}
