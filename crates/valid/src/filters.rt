//! The tests of diagnostic filters.
ghost use Rattle.std.specs.Prelude.{◌≡◌};
ghost use Rattle.rules.specs.Fault.{first, numbered};
ghost use Rattle.rules.specs.Firsts.{failure};
ghost use Rattle.rules.specs.Check.{filter_tests};
ghost use Rattle.body.specs.Errors.{forward_dependency};
ghost use Rattle.valid.specs.Module.{shown_module};

use crate::module::Module;
use body::errors::FwdDepError;
use body::expressions::check_operands;
use draft::state::SlotTable;
use ir::handle::Table;
use items::section::Section;
use tables::tables::FilterTable;

/// The parent of every filter is earlier.
pub(crate) fn validate_filters(module: Module<'_>) -> Result<(), FwdDepError>
    ensures { failure forward_dependency result ≡ first (numbered filter_tests (shown_module «module».entry).filters) }
{
    let mut filters = FilterTable::new(module.view);
    for (number, filter) in module
        .items(Section::Numbered(SlotTable::Filters))
        .enumerate()
    {
        check_operands(&mut filters, Table::Filters, number, filter.place)?;
    }
    Ok(())
}
