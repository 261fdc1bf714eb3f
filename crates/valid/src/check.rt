//! The check of a draft's module.
ghost use Rattle.std.specs.Prelude.{◌≡◌, List};
ghost use Rattle.std.specs.List.{flat_map};
ghost use Rattle.std.specs.Option.{option_to_list};
ghost use Rattle.std.specs.Result.{result_err};
ghost use Rattle.rules.specs.declared.faults.Rule.TheVariants as rule;
ghost use Rattle.rules.specs.Sizes.{sizes as sizes_of};
ghost use Rattle.rules.specs.Fault.{first, own_inside};
ghost use Rattle.rules.specs.Firsts.{failure};
ghost use Rattle.rules.specs.Check.{special_tests, later_tests};
ghost use Rattle.rules.specs.Once.{check_once_tests};
ghost use Rattle.rules.specs.Verdict.{Verdict};
ghost use Rattle.draft.specs.State.{state};
ghost use Rattle.arena.specs.Viewing.{viewed};
ghost use Rattle.body.specs.Errors.{bad_handle, invalid_handle, whole};
ghost use Rattle.valid.specs.Module.{shown_module};
ghost use Rattle.valid.specs.Check.{verdict_of};

use crate::bodies::{validate_entry_points, validate_functions};
use crate::filters::validate_filters;
use crate::module::Module;
use crate::types::validate_types_and_expressions;
use arena::view::View;
use body::errors::{BadHandle, ValidationError};
use body::inside::{check_handles, check_own};
use body::statements::check_fields;
use draft::state::SlotTable;
use items::last::last;
use items::section::Section;
use rules::faults::Rejection;

/// The first three special types are inside.
fn validate_special_types(module: Module<'_>) -> Result<(), BadHandle>
    ensures { failure bad_handle result ≡ first (flat_map (special_tests (sizes_of (shown_module «module».entry))) (option_to_list (shown_module «module».entry).special)) }
{
    match last(module.items(Section::Kinds(6, 6))) {
        Some(special) => check_fields(special.record, &[0, 1, 2], module.sizes, special.place),
        None => Ok(()),
    }
}

/// The leaf of the module is inside.
fn validate_leaf(module: Module<'_>) -> Result<(), BadHandle>
    ensures { failure bad_handle result ≡ first (flat_map (own_inside rule.Inside (sizes_of (shown_module «module».entry))) (option_to_list (shown_module «module».entry).leaf)) }
{
    match last(module.items(Section::Kinds(9, 9))) {
        Some(leaf) => check_handles(leaf.record.handles(), module.sizes, leaf.place),
        None => Ok(()),
    }
}

/// The tests of a module, in naga's order.
#[tactic(auto, using(rules::proofs::Firsts::first_append))]
fn validate_module_handles(module: Module<'_>) -> Result<(), ValidationError>
    ensures { failure whole result ≡ first (check_once_tests (shown_module «module».entry)) }
{
    let sizes = module.sizes;
    validate_types_and_expressions(module)?;
    check_own(module.items(Section::Numbered(SlotTable::Constants)), sizes)?;
    check_own(module.items(Section::Numbered(SlotTable::Overrides)), sizes)?;
    check_own(
        module.items(Section::Numbered(SlotTable::GlobalVariables)),
        sizes,
    )?;
    validate_entry_points(module)?;
    validate_functions(module)?;
    validate_special_types(module)?;
    validate_filters(module)?;
    validate_leaf(module)?;
    Ok(())
}

/// Whether the module of a draft passes every test, or why the draft is refused.
pub fn check(view: View<'_>) -> Result<(), Rejection>
    ensures answer { result_err result ≡ verdict_of (state (viewed view.entry)) }
    ensures laws { Verdict (state (viewed view.entry)).built }
{
    let Some(module) = Module::of(view) else {
        return Err(Rejection::Unfinished);
    };
    validate_module_handles(module)?;
    Ok(())
}
