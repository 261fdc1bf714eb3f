//! Why an image is refused.
ghost use Rattle.std.specs.Prelude.{◌≡◌};
ghost use Rattle.images.specs.declared.refusal.ImageRefusal.TheVariants as image_refusal;

use draft::refusal::Refusal;
use rules::faults::Rejection;

/// Why an image is refused: put refuses one of its records, or the module that they make is refused.
#[derive(Clone, Copy)]
pub enum ImageRefusal {
    Put(Refusal),
    Module(Rejection),
}

impl From<Refusal> for ImageRefusal {
    ghost from_gives = { λ e r. r ≡ image_refusal.Put e };

    fn from(refusal: Refusal) -> ImageRefusal {
        ImageRefusal::Put(refusal)
    }
}

impl From<Rejection> for ImageRefusal {
    ghost from_gives = { λ e r. r ≡ image_refusal.Module e };

    fn from(rejection: Rejection) -> ImageRefusal {
        ImageRefusal::Module(rejection)
    }
}
