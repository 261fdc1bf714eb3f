//! Drafts that records are put into.
ghost use Rattle.std.specs.Prelude.{◌≡◌, ℕ, List, [], IfOk, vec_len};
ghost use Rattle.std.specs.Result.{result_err};
ghost use Rattle.std.proofs.Props.{props};
ghost use Rattle.draft.specs.State.{state};
ghost use Rattle.draft.specs.Counting.{counts_of};
ghost use Rattle.arena.specs.Memory.{Stands, records, Accepted-prop};
ghost use Rattle.arena.specs.Put.{put_def};
ghost use Rattle.arena.specs.Viewing.{viewed};
ghost use Rattle.sealing.specs.Seal.{seal_of};
ghost use Rattle.seal.specs.Sealed.{IsSealedDraft, sealed_records};
ghost use Rattle.owned.specs.Kept.{kept_in};
ghost use Rattle.owned.specs.Putting.{put_all};
ghost use Rattle.images.specs.Answer.{asked};
ghost use Rattle.any_draft.specs.Putting.{Put, PutOrFails};

use arena::Draft;
use arena::slot::Slot;
use arena::view::View;
use draft::counts::Counts;
use draft::refusal::Refusal;
use images::question::Question;
use ir::handle::Handle;
use owned::denial::Denial;
use owned::owned::OwnedDraft;
use rules::faults::Rejection;
use seal::seal::seal;
use seal::sealed::Sealed;
use std::alloc::{AllocError, Global};

/// What a draft answers to a record: the item that it is, if it is numbered, or why it is refused.
// Beside `Denial`: here a refusal is an answer to show, and only want of memory an error.
pub type Outcome = Result<Option<Handle>, Refusal>;

/// A draft with its memory.
pub trait AnyDraft {
    /// The records that it has kept.
    ghost kept: { Self → List (List ℕ) };

    /// What it answers to a record where there is memory, and what it has kept then.
    ghost put_gives: { Self → List ℕ → Put };

    /// Puts a record; fails where there is no memory to be had for it.
    fn put(&mut self, record: &[u8]) -> Result<Outcome, AllocError>
        ensures { PutOrFails (put_gives self.old «record».now) result (kept self.old) (kept self.new) };

    /// What is counted of its records.
    fn counts(&self) -> Counts
        ensures { result ≡ counts_of (state (kept self.now)) };

    /// Its kept records.
    fn view(&self) -> View<'_>
        ensures { viewed result ≡ kept self.now };

    /// What it answers to a question, staying as it is.
    fn ask(&self, question: Question) -> Result<(), Rejection>
        ensures { result_err result ≡ asked question (state (kept self.now)) };

    /// The draft sealed, or why it is not.
    fn sealed(&self) -> Result<Sealed<'_>, Rejection>
        ensures answer { result_err result ≡ seal_of (state (kept self.now)) }
        ensures readable { IfOk result IsSealedDraft }
        ensures same { IfOk result (λ s. sealed_records s ≡ kept self.now) };
}

/// A draft in memory that does not grow.
// Not an `OwnedDraft`, of the same fields and `view`: its put grows the memory, which it lends only for reading.
#[derive(Drop)]
pub struct FixedDraft {
    draft: Draft,
    bytes: Vec<u8>,
    slots: Vec<Slot>,
    ghost stands: { Stands draft bytes.items slots.items } by { Prim.hlevel (props, Accepted-prop) },
}

impl FixedDraft {
    /// A draft that has kept nothing, in so many bytes and slots.
    pub fn new(heap: Global, bytes: usize, slots: usize) -> Result<FixedDraft, AllocError>
        ensures empty { IfOk result (λ d. records d.draft d.bytes.items d.slots.items ≡ []) }
        ensures sizes { IfOk result (λ d. (vec_len d.bytes ≡ bytes) × (vec_len d.slots ≡ slots)) }
    {
        Ok(FixedDraft {
            draft: Draft::new(),
            bytes: vec![in heap; 0; bytes]?,
            slots: vec![in heap; Slot::EMPTY; slots]?,
        })
    }
}

impl AnyDraft for FixedDraft {
    ghost kept = { λ d. records d.draft d.bytes.items d.slots.items };

    ghost put_gives = { λ d r. put_def (vec_len d.bytes) (vec_len d.slots) (records d.draft d.bytes.items d.slots.items) r };

    fn put(&mut self, record: &[u8]) -> Result<Outcome, AllocError> {
        Ok(self.draft.put(self.bytes.as_mut_slice(), self.slots.as_mut_slice(), record))
    }

    fn counts(&self) -> Counts {
        self.draft.counts()
    }

    fn view(&self) -> View<'_> {
        self.draft
            .view(self.bytes.as_slice(), self.slots.as_slice())
    }

    fn ask(&self, question: Question) -> Result<(), Rejection> {
        question.ask(&self.draft, self.bytes.as_slice(), self.slots.as_slice())
    }

    fn sealed(&self) -> Result<Sealed<'_>, Rejection> {
        seal(&self.draft, self.bytes.as_slice(), self.slots.as_slice())
    }
}

impl AnyDraft for OwnedDraft {
    ghost kept = { kept_in };

    ghost put_gives = { λ d r. put_all (kept_in d) r };

    fn put(&mut self, record: &[u8]) -> Result<Outcome, AllocError> {
        match OwnedDraft::put(self, record) {
            Ok(answer) => Ok(Ok(answer)),
            Err(Denial::Refused(refusal)) => Ok(Err(refusal)),
            Err(Denial::NoMemory(error)) => Err(error),
        }
    }

    fn counts(&self) -> Counts {
        let (draft, _, _) = self.parts();
        draft.counts()
    }

    fn view(&self) -> View<'_> {
        OwnedDraft::view(self)
    }

    fn ask(&self, question: Question) -> Result<(), Rejection> {
        let (draft, bytes, slots) = self.parts();
        question.ask(draft, bytes, slots)
    }

    fn sealed(&self) -> Result<Sealed<'_>, Rejection> {
        let (draft, bytes, slots) = self.parts();
        seal(draft, bytes, slots)
    }
}

#[cfg(test)]
mod tests {
    use super::*;
    use std::test::Fail;

    const SCALAR: [u8; 9] = [16, 0, 0, 0, 0, 0, 0, 0, 0];

    const OTHER: [u8; 9] = [16, 1, 0, 0, 0, 0, 0, 0, 0];

    // Room for two records in bytes and for one in slots.
    #[test]
    fn memory_that_does_not_grow(rt: HostRuntime) -> Result<(), Fail> {
        let mut draft = FixedDraft::new(rt.alloc(), 18, 1)?;
        assert!(rt; draft.put(&SCALAR)?.is_ok());
        assert!(rt; draft.put(&SCALAR)?.is_ok());
        assert_eq!(rt; draft.put(&OTHER)?.err(), Some(Refusal::Full));
        assert_eq!(rt; draft.counts().kept, 1);
        assert_eq!(rt; draft.view().kept(), 1);
        Ok(())
    }

    #[test]
    fn memory_that_grows(rt: HostRuntime) -> Result<(), Fail> {
        let mut draft = OwnedDraft::new(rt.alloc());
        assert!(rt; AnyDraft::put(&mut draft, &SCALAR)?.is_ok());
        assert!(rt; AnyDraft::put(&mut draft, &OTHER)?.is_ok());
        assert_eq!(rt; draft.counts().kept, 2);
        Ok(())
    }
}
