//! Every table of a sealed draft, walked by both readings.
ghost use Rattle.std.specs.Prelude.{◌≡◌, IfOk};
ghost use Rattle.draft.specs.State.{state};
ghost use Rattle.seal.specs.Sealed.{IsSealedDraft, sealed_records};
ghost use Rattle.walks.specs.Whole.{AreWalks};

use crate::bodies::walk_bodies;
use crate::table_walk::{BothWalks, walk_both};
use draft::state::SlotTable;
use seal::sealed::Sealed;
use std::alloc::{AllocError, Global};
use tables::tables::{FilterTable, FunctionTable, GlobalExpressionTable, TypeTable};

/// The values of all tables: of the module's, and of the expressions of each function and of each entry point.
#[derive(Drop)]
pub struct DraftWalks {
    pub types: BothWalks,
    pub filters: BothWalks,
    pub functions: BothWalks,
    pub globals: BothWalks,
    pub function_bodies: Vec<BothWalks>,
    pub entry_bodies: Vec<BothWalks>,
}

/// The values of all tables of a sealed draft. The time is linear in what is kept: each body is found from the one
/// before it.
pub fn walk_draft(heap: Global, sealed: &Sealed<'_>) -> Result<DraftWalks, AllocError>
    requires { IsSealedDraft sealed.now }
    ensures { IfOk result (AreWalks (state (sealed_records sealed.now)).built) }
{
    let view = sealed.view();
    Ok(DraftWalks {
        types: walk_both(heap, &mut TypeTable::new(view))?,
        filters: walk_both(heap, &mut FilterTable::new(view))?,
        functions: walk_both(heap, &mut FunctionTable::new(view))?,
        globals: walk_both(heap, &mut GlobalExpressionTable::new(view))?,
        function_bodies: walk_bodies(heap, view, SlotTable::Functions)?,
        entry_bodies: walk_bodies(heap, view, SlotTable::EntryPoints)?,
    })
}
