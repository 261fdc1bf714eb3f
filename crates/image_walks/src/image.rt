//! The walk of a table of an image.
ghost use Rattle.std.specs.Prelude.{◌≡◌, length};
ghost use Rattle.image_walks.specs.Answer.{nodes_walked};
ghost use Rattle.walk.specs.Leaves.{tallied, Leaves};

use crate::refusal::ImageWalkRefusal;
use arena::Draft;
use arena::slot::Slot;
use images::put::put_all;
use seal::seal::seal;
use sealed_walk::walking::{DraftTable, walk_sealed};
use walk::reading::Reading;
use walk::walk::{Tally, WalkRefusal};

/// Puts the records of an image on a new draft in lent memory, which may hold anything, seals it and walks the table:
/// the value of each item in the place of its number, or the first refusal.
pub fn walk_image<R: Reading>(
    table: Option<DraftTable>,
    reading: &R,
    values: &mut [R::Value],
    bytes: &mut [u8],
    slots: &mut [Slot],
    image: &[u8],
) -> Result<Tally, ImageWalkRefusal>
    ensures answer { result ≡ tallied (nodes_walked (length bytes.old) (length slots.old) image.now table (length values.old)) }
    ensures values { Leaves (R.steps reading.now) (nodes_walked (length bytes.old) (length slots.old) image.now table (length values.old)) values.old values.new }
{
    let mut draft = Draft::new();
    put_all(&mut draft, bytes, slots, image)?;
    let sealed = seal(&draft, bytes, slots)?;
    let table = table.ok_or(WalkRefusal::NoSuchBody)?;
    let tally = walk_sealed(sealed, table, reading, values)?;
    Ok(tally)
}
