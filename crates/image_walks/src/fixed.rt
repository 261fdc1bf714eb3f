//! The walk of a table of an image in memory of a fixed size, on the stack.
ghost use Rattle.std.specs.Prelude.{◌≡◌, ◌^◌, ◌<◌, length};
ghost use Rattle.image_walks.specs.Answer.{nodes_walked, numbers};
ghost use Rattle.walk.specs.Leaves.{tallied, Leaves};

use crate::image::walk_image;
use crate::walked::Walked;
use arena::slot::Slot;
use sealed_walk::walking::DraftTable;
use walk::reading::Reading;

/// Memory to lend to a new draft.
// It promises nothing: a contract that named the elements would be unfolded element by element.
fn lent<T: Copy, const N: usize>(blank: T) -> [T; N] {
    [blank; N]
}

/// What is answered for a walk of a table of an image in so many bytes and slots.
pub fn walk_within<R: Reading, const BYTES: usize, const SLOTS: usize>(
    table: Option<DraftTable>,
    reading: &R,
    values: &mut [R::Value],
    image: &[u8],
) -> Walked
    requires bytes { BYTES < 2 ^ 63 }
    requires slots { SLOTS < 2 ^ 59 }
    ensures answer { result ≡ numbers (tallied (nodes_walked BYTES SLOTS image.now table (length values.old))) }
    ensures values { Leaves (R.steps reading.now) (nodes_walked BYTES SLOTS image.now table (length values.old)) values.old values.new }
{
    let mut bytes: [u8; BYTES] = lent(0);
    let mut slots: [Slot; SLOTS] = lent(Slot::EMPTY);
    Walked::of(walk_image(table, reading, values, &mut bytes, &mut slots, image))
}
