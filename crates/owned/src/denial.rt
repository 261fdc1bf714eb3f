//! Why an owned draft keeps no record.
ghost use Rattle.std.specs.Prelude.{◌≡◌};
ghost use Rattle.owned.specs.declared.denial.Denial.TheVariants.{Refused, NoMemory};

use draft::refusal::Refusal;
use std::alloc::AllocError;

/// Why a record is not kept.
#[derive(Clone, Copy)]
pub enum Denial {
    /// The draft refuses it.
    Refused(Refusal),
    /// There is no more memory to be had.
    NoMemory(AllocError),
}

impl From<Refusal> for Denial {
    ghost from_gives = { λ e r. r ≡ Refused e };

    fn from(refusal: Refusal) -> Denial {
        Denial::Refused(refusal)
    }
}

impl From<AllocError> for Denial {
    ghost from_gives = { λ e r. r ≡ NoMemory e };

    fn from(error: AllocError) -> Denial {
        Denial::NoMemory(error)
    }
}
