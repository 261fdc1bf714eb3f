//! The answer to a question for an image.
ghost use Rattle.std.specs.Prelude.{◌≡◌, length};
ghost use Rattle.std.specs.Result.{result_err};
ghost use Rattle.images.specs.Answer.{refusal_in};

use crate::put::put_all;
use crate::question::Question;
use crate::refusal::ImageRefusal;
use arena::Draft;
use arena::slot::Slot;

/// Puts the records of an image on a new draft in lent memory, which may hold anything, and asks the
/// question of what they make: whether it passes, or the first refusal.
pub fn ask_image(
    question: Question,
    bytes: &mut [u8],
    slots: &mut [Slot],
    image: &[u8],
) -> Result<(), ImageRefusal>
    ensures { result_err result ≡ refusal_in question (length bytes.old) (length slots.old) image.now }
{
    let mut draft = Draft::new();
    put_all(&mut draft, bytes, slots, image)?;
    question.ask(&draft, bytes, slots)?;
    Ok(())
}
