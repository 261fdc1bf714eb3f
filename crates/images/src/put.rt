//! Putting the records of an image.
ghost use Rattle.std.specs.Prelude.{◌≡◌, length};
ghost use Rattle.records.specs.Image.{split};
ghost use Rattle.arena.specs.Memory.{Stands, records};
ghost use Rattle.images.specs.Putting.{put_all};

use arena::Draft;
use arena::slot::Slot;
use draft::refusal::Refusal;
use records::image::Records;

/// Puts the records of an image, one after the other, up to the first that the draft refuses: that
/// refusal. What was put before it stays.
// Lent what put is lent: the draft holds no memory.
pub fn put_all(
    draft: &mut Draft,
    bytes: &mut [u8],
    slots: &mut [Slot],
    image: &[u8],
) -> Result<(), Refusal>
    requires { Stands draft.old bytes.old slots.old }
    ensures stands { Stands draft.new bytes.new slots.new }
    ensures answers { result ≡ (put_all (length bytes.old) (length slots.old) (records draft.old bytes.old slots.old) (split image.now)).0 }
    ensures keeps { records draft.new bytes.new slots.new ≡ (put_all (length bytes.old) (length slots.old) (records draft.old bytes.old slots.old) (split image.now)).1 }
{
    for record in Records::new(image) {
        draft.put(bytes, slots, record.bytes)?;
    }
    Ok(())
}
