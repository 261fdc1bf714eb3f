//! Why no table of an image is walked.
ghost use Rattle.std.specs.Prelude.{◌≡◌};
ghost use Rattle.images.specs.declared.refusal.ImageRefusal.TheVariants as image_refusal;
ghost use Rattle.image_walks.specs.declared.refusal.ImageWalkRefusal.TheVariants as image_walk_refusal;

use draft::refusal::Refusal;
use images::refusal::ImageRefusal;
use rules::faults::Rejection;
use walk::walk::WalkRefusal;

/// Why no table of an image is walked: the image is refused, by put or by sealing, or the walk is.
#[derive(Clone, Copy)]
pub enum ImageWalkRefusal {
    Image(ImageRefusal),
    Walk(WalkRefusal),
}

impl From<Refusal> for ImageWalkRefusal {
    ghost from_gives = { λ e r. r ≡ image_walk_refusal.Image (image_refusal.Put e) };

    fn from(refusal: Refusal) -> ImageWalkRefusal {
        ImageWalkRefusal::Image(ImageRefusal::from(refusal))
    }
}

impl From<Rejection> for ImageWalkRefusal {
    ghost from_gives = { λ e r. r ≡ image_walk_refusal.Image (image_refusal.Module e) };

    fn from(rejection: Rejection) -> ImageWalkRefusal {
        ImageWalkRefusal::Image(ImageRefusal::from(rejection))
    }
}

impl From<WalkRefusal> for ImageWalkRefusal {
    ghost from_gives = { λ e r. r ≡ image_walk_refusal.Walk e };

    fn from(refusal: WalkRefusal) -> ImageWalkRefusal {
        ImageWalkRefusal::Walk(refusal)
    }
}
