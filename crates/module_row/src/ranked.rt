//! An item with its rank.
use crate::rows::RowItem;

/// An item of a row, and its rank.
#[derive(Clone, Copy)]
pub(crate) struct Ranked {
    pub rank: u128,
    pub item: RowItem,
}
