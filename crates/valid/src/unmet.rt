//! The global expressions that are not tested yet.
use items::items::Items;

/// The global expressions that no type has met, and the number of the first.
// What naga has as a peekable iterator.
#[derive(Clone, Copy)]
pub struct Unmet<'a> {
    pub left: Items<'a>,
    pub first: usize,
}
