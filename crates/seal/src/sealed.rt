//! A draft that sealing accepts.
use arena::Draft;
use arena::slot::Slot;
use arena::view::View;

/// A draft and its memory, lent for reading. Only an accepting seal makes one; while it stands no record is put.
#[derive(Drop)]
pub struct Sealed<'a> {
    pub(crate) draft: &'a Draft,
    pub(crate) bytes: &'a [u8],
    pub(crate) slots: &'a [Slot],
}

impl<'a> Sealed<'a> {
    ghost use Rattle.std.specs.Prelude.{◌≡◌};
    ghost use Rattle.arena.specs.Viewing.{viewed};
    ghost use Rattle.seal.specs.Sealed.{IsSealedDraft, sealed_records};

    /// Its kept records, for reading.
    pub fn view(&self) -> View<'a>
        requires { IsSealedDraft self.now }
        ensures { viewed result ≡ sealed_records self.now }
    {
        self.draft.view(self.bytes, self.slots)
    }
}
