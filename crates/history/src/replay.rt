//! Makes every call of a list on a new draft.
ghost use Rattle.std.specs.Prelude.{◌≡◌, min, [], ◌++◌, length};
ghost use Rattle.std.specs.Result.{result_err};
ghost use Rattle.draft.specs.State.{state};
ghost use Rattle.sealing.specs.Seal.{seal_of};
ghost use Rattle.arena.specs.Memory.{Stands, records};
ghost use Rattle.history.specs.Calls.{outcome_of, kept_by, LeftBy, Replayed};

use crate::calls::{Call, Outcome};
use crate::walks::walk_wanted;
use arena::Draft;
use arena::slot::Slot;
use node::table::NodeTable;
use rules::faults::Rejection;
use seal::seal::seal;
use valid::check::check;
use walk::reading::Reading;

/// Seals a draft, and lets it go.
fn seal_once(draft: &Draft, bytes: &[u8], slots: &[Slot]) -> Result<(), Rejection>
    requires { Stands draft.now bytes.now slots.now }
    ensures { result_err result ≡ seal_of (state (records draft.now bytes.now slots.now)) }
{
    seal(draft, bytes, slots)?;
    Ok(())
}

/// Makes one call.
// Five arguments: a struct of these references would need a promise of its own that they stay.
fn make<'a, R: Reading, T: NodeTable<'a> + Copy>(
    call: &Call<'_, R, T>,
    draft: &mut Draft,
    bytes: &mut [u8],
    slots: &mut [Slot],
    values: &mut [R::Value],
) -> Outcome
    requires { Stands draft.old bytes.old slots.old }
    ensures stands { Stands draft.new bytes.new slots.new }
    ensures answers { result ≡ outcome_of T.nodes (length bytes.old) (length slots.old) (length values.old) (records draft.old bytes.old slots.old) call.now }
    ensures keeps { records draft.new bytes.new slots.new ≡ kept_by (length bytes.old) (length slots.old) (records draft.old bytes.old slots.old) call.now }
    ensures leaves { LeftBy T.nodes R.steps (length values.old) (records draft.old bytes.old slots.old) call.now values.old values.new }
{
    match call {
        Call::Put(record) => Outcome::Put(draft.put(bytes, slots, record)),
        Call::Check => Outcome::Checked(check(draft.view(bytes, slots))),
        Call::Seal => Outcome::Sealed(seal_once(draft, bytes, slots)),
        Call::Walk(walk) => Outcome::Walked(walk_wanted(walk, draft, bytes, slots, values)),
    }
}

/// Makes the calls of a list, one after the other, on a new draft in memory that holds anything: as
/// many as there are places for what they answer; the places beyond stay as they are. Every walk is lent
/// the same values.
pub fn replay<'a, R: Reading, T: NodeTable<'a> + Copy>(
    calls: &[Call<'_, R, T>],
    answers: &mut [Option<Outcome>],
    bytes: &mut [u8],
    slots: &mut [Slot],
    values: &mut [R::Value],
) -> Draft
    ensures { Replayed T.nodes R.steps calls.now (record { answers = answers.old; bytes = bytes.old; slots = slots.old; values = values.old }) result (record { answers = answers.new; bytes = bytes.new; slots = slots.new; values = values.new }) }
{
    let mut draft = Draft::new();
    let made = &calls[..calls.len().min(answers.len())];
    for (place, call) in made.iter().enumerate() {
        // By index: after `zip`, a proof knows nothing of the elements of `iter_mut`.
        answers[place] = Some(make(call, &mut draft, bytes, slots, values));
    }
    draft
}
