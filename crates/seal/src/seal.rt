//! Seals a draft.
ghost use Rattle.std.specs.Prelude.{◌≡◌, IfOk, None};
ghost use Rattle.std.specs.Result.{result_err};
ghost use Rattle.rules.specs.Fault.{first};
ghost use Rattle.rules.specs.Firsts.{failure};
ghost use Rattle.rules.specs.Check.{check as check_of};
ghost use Rattle.draft.specs.State.{state};
ghost use Rattle.arena.specs.Memory.{Stands, records};
ghost use Rattle.valid.specs.Module.{shown_module};
ghost use Rattle.sealing.specs.Seal.{seal_tests, seal_of};
ghost use Rattle.sealing.specs.Once.{seal_once_tests};
ghost use Rattle.seal.specs.Breach.{breached};
ghost use Rattle.seal.specs.Sealed.{IsSealed, IsSealedDraft, Laws};

use crate::bodies::seal_bodies;
use crate::breach::Breach;
use crate::calls::seal_calls;
use crate::globals::seal_globals;
use crate::others::seal_others;
use crate::sealed::Sealed;
use crate::sizes::seal_sizes;
use arena::Draft;
use arena::slot::Slot;
use draft::state::SlotTable;
use rules::faults::Rejection;
use valid::check::check;
use valid::module::Module;

/// What the check leaves out of a module that passes it.
#[tactic(auto, using(rules::proofs::Firsts::first_append))]
fn seal_module(module: Module<'_>) -> Result<(), Breach>
    requires { check_of (shown_module «module») ≡ None }
    ensures { failure breached result ≡ first (seal_once_tests (shown_module «module».entry)) }
{
    seal_globals(module)?;
    seal_sizes(module)?;
    seal_bodies(module, SlotTable::Functions)?;
    seal_bodies(module, SlotTable::EntryPoints)?;
    seal_calls(module)?;
    seal_others(module)
}

/// The draft, lent for reading, if its module passes every test; or why it is refused.
pub fn seal<'a>(
    draft: &'a Draft,
    bytes: &'a [u8],
    slots: &'a [Slot],
) -> Result<Sealed<'a>, Rejection>
    requires { Stands draft.now bytes.now slots.now }
    ensures answer { result_err result ≡ seal_of (state (records draft.now bytes.now slots.now)) }
    ensures sealed { IfOk result (λ s. IsSealed s draft.now bytes.now slots.now) }
    ensures readable { IfOk result IsSealedDraft }
    ensures laws { Laws (state (records draft.now bytes.now slots.now)).built }
{
    let view = draft.view(bytes, slots);
    let Some(module) = Module::of(view) else {
        return Err(Rejection::Unfinished);
    };
    check(view)?;
    seal_module(module)?;
    Ok(Sealed {
        draft,
        bytes,
        slots,
    })
}
