//! The tests of functions and of entry points.
ghost use Rattle.std.specs.Prelude.{◌≡◌, Some};
ghost use Rattle.std.specs.List.{flat_map};
ghost use Rattle.rules.specs.Fault.{first, numbered};
ghost use Rattle.rules.specs.Firsts.{failure};
ghost use Rattle.rules.specs.Sizes.{sizes as sizes_of};
ghost use Rattle.rules.specs.Check.{body_tests, entry_tests};
ghost use Rattle.body.specs.Errors.{invalid_handle};
ghost use Rattle.valid.specs.Module.{shown_module};

use crate::module::Module;
use body::errors::InvalidHandleError;
use body::function::{validate_entry_point, validate_function};
use draft::state::SlotTable;
use items::body::Body;
use items::section::Section;

/// Every entry point passes.
pub(crate) fn validate_entry_points(module: Module<'_>) -> Result<(), InvalidHandleError>
    ensures { failure invalid_handle result ≡ first (flat_map (entry_tests (sizes_of (shown_module «module».entry))) (shown_module «module».entry).entries) }
{
    for opener in module.items(Section::Numbered(SlotTable::EntryPoints)) {
        validate_entry_point(Body::of(module.view, opener), module.sizes)?;
    }
    Ok(())
}

/// Every function passes.
pub(crate) fn validate_functions(module: Module<'_>) -> Result<(), InvalidHandleError>
    ensures { failure invalid_handle result ≡ first (numbered (λ f. body_tests (sizes_of (shown_module «module».entry)) (Some f)) (shown_module «module».entry).functions) }
{
    for (number, opener) in module
        .items(Section::Numbered(SlotTable::Functions))
        .enumerate()
    {
        let body = Body::of(module.view, opener);
        validate_function(body, module.sizes, Some(number))?;
    }
    Ok(())
}
