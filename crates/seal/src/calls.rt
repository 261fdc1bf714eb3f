//! What sealing tests of calls.
ghost use Rattle.std.specs.Prelude.{◌≡◌};
ghost use Rattle.rules.specs.Fault.{first, numbered};
ghost use Rattle.rules.specs.Firsts.{failure};
ghost use Rattle.valid.specs.Module.{shown_module};
ghost use Rattle.sealing.specs.Seal.{call_tests};
ghost use Rattle.sealing.specs.Promised.{ResultsEarlier};
ghost use Rattle.seal.specs.Breach.{breached};

use crate::breach::Breach;
use crate::leaves::seal_operands;
use draft::state::SlotTable;
use ir::handle::Table;
use items::section::Section;
use tables::tables::FunctionTable;
use valid::module::Module;

/// The functions that each function calls are earlier, where those that it has results of are.
// The operands of a function are the functions of its results and then those of its calls; the check has tested the first.
pub(crate) fn seal_calls(module: Module<'_>) -> Result<(), Breach>
    requires { ResultsEarlier (shown_module «module») }
    ensures { failure breached result ≡ first (numbered call_tests (shown_module «module».entry).functions) }
{
    let mut functions = FunctionTable::new(module.view);
    for (number, opener) in module
        .items(Section::Numbered(SlotTable::Functions))
        .enumerate()
    {
        seal_operands(&mut functions, Table::Functions, number, opener.place)?;
    }
    Ok(())
}
