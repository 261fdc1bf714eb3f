//! What sealing tests of special types, of predeclared types and of the records of entry points.
ghost use Rattle.std.specs.Prelude.{◌≡◌};
ghost use Rattle.std.specs.List.{flat_map};
ghost use Rattle.std.specs.Option.{option_to_list};
ghost use Rattle.rules.specs.Fault.{first};
ghost use Rattle.rules.specs.Firsts.{failure};
ghost use Rattle.rules.specs.Sizes.{sizes as sizes_of};
ghost use Rattle.valid.specs.Module.{shown_module};
ghost use Rattle.sealing.specs.Seal.{special_tests, payload_tests, other_tests};
ghost use Rattle.seal.specs.Breach.{breached};

use crate::bodies::seal_compared;
use crate::breach::Breach;
use crate::leaves::{seal_fields, seal_own};
use draft::state::SlotTable;
use items::last::last;
use items::section::Section;
use valid::module::Module;

/// The field of an entry point's record that holds its incoming payload.
const INCOMING_RAY_PAYLOAD: usize = 10;

/// The last two special types are inside.
fn seal_special_types(module: Module<'_>) -> Result<(), Breach>
    ensures { failure breached result ≡ first (flat_map (special_tests (sizes_of (shown_module «module».entry))) (option_to_list (shown_module «module».entry).special)) }
{
    match last(module.items(Section::Kinds(6, 6))) {
        Some(special) => seal_fields(special.record, &[3, 4], module.sizes, special.place),
        None => Ok(()),
    }
}

/// The incoming payload of each entry point is inside.
fn seal_payloads(module: Module<'_>) -> Result<(), Breach>
    ensures { failure breached result ≡ first (flat_map (payload_tests (sizes_of (shown_module «module».entry))) (shown_module «module».entry).entries) }
{
    for opener in module.items(Section::Numbered(SlotTable::EntryPoints)) {
        seal_fields(
            opener.record,
            &[INCOMING_RAY_PAYLOAD],
            module.sizes,
            opener.place,
        )?;
    }
    Ok(())
}

/// What is tested after the calls.
#[tactic(auto, using(rules::proofs::Firsts::first_append))]
pub(crate) fn seal_others(module: Module<'_>) -> Result<(), Breach>
    ensures { failure breached result ≡ first (other_tests (shown_module «module».entry)) }
{
    seal_special_types(module)?;
    seal_own(module.items(Section::Kinds(7, 7)), module.sizes)?;
    seal_payloads(module)?;
    seal_compared(module, SlotTable::Functions)?;
    seal_compared(module, SlotTable::EntryPoints)
}
