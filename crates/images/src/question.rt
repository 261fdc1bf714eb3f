//! What is asked of an image.
ghost use Rattle.std.specs.Prelude.{◌≡◌};
ghost use Rattle.std.specs.Result.{result_err};
ghost use Rattle.draft.specs.State.{state};
ghost use Rattle.arena.specs.Memory.{Stands, records};
ghost use Rattle.images.specs.Answer.{asked};

use arena::Draft;
use arena::slot::Slot;
use rules::faults::Rejection;
use seal::seal::seal;
use valid::check::check;

/// What is asked of the module that the records of an image make: whether it passes the check, or
/// whether it is sealed.
#[derive(Clone, Copy)]
pub enum Question {
    Check,
    Seal,
}

impl Question {
    /// Asks it of a draft, which stays: a sealed draft is let go.
    pub fn ask(self, draft: &Draft, bytes: &[u8], slots: &[Slot]) -> Result<(), Rejection>
        requires { Stands draft.now bytes.now slots.now }
        ensures { result_err result ≡ asked self (state (records draft.now bytes.now slots.now)) }
    {
        match self {
            Question::Check => check(draft.view(bytes, slots)),
            Question::Seal => {
                seal(draft, bytes, slots)?;
                Ok(())
            }
        }
    }
}
