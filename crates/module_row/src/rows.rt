//! The row of a sealed module.
ghost use Rattle.std.specs.Prelude.{◌≡◌, IfOk, map};
ghost use Rattle.draft.specs.State.{state};
ghost use Rattle.promises.specs.Inside.{ModuleInside};
ghost use Rattle.promises.specs.Rows.{IsModuleRow, row_items};
ghost use Rattle.seal.specs.Sealed.{IsSealedDraft, sealed_records};
ghost use Rattle.valid.specs.Module.{shown_module};
ghost use Rattle.module_row.specs.Rows.{shown_item};
ghost use Rattle.module_row.specs.Ranked.{shown_ranked, with_rank};

use crate::ranked::Ranked;
use crate::ranks::Ranks;
use seal::sealed::Sealed;
use std::alloc::{AllocError, Global};

/// An item of one of the four tables, by its number.
#[derive(Clone, Copy, PartialEq)]
pub enum RowItem {
    Type(usize),
    Override(usize),
    Constant(usize),
    Expression(usize),
}

/// All items of the four tables with their ranks.
fn ranked(heap: Global, ranks: &Ranks<'_>) -> Result<Vec<Ranked>, AllocError>
    requires { ModuleInside (shown_module ranks.now.«module») }
    ensures { IfOk result (λ v. map shown_ranked v.items ≡ map (with_rank (shown_module ranks.now.«module»)) (row_items (shown_module ranks.now.«module»))) }
{
    let mut ranked = Vec::new(heap);
    ranks.rank_types(&mut ranked)?;
    ranks.rank_overrides(&mut ranked)?;
    ranks.rank_constants(&mut ranked)?;
    ranks.rank_expressions(&mut ranked)?;
    Ok(ranked)
}

/// The items without their ranks.
fn unranked(heap: Global, ranked: &[Ranked]) -> Result<Vec<RowItem>, AllocError>
    ensures { IfOk result (λ v. v.items ≡ map (λ r. r.item) ranked.now) }
{
    ranked.iter().map(|ranked| ranked.item).collect(heap)
}

/// A row of a sealed draft's types, overrides, constants and global expressions: each once and after all of these that
/// its handles point to.
pub fn row(heap: Global, sealed: &Sealed<'_>) -> Result<Vec<RowItem>, AllocError>
    requires { IsSealedDraft sealed.now }
    ensures { IfOk result (λ v. IsModuleRow (state (sealed_records sealed.now)).built (map shown_item v.items)) }
{
    let ranks = Ranks::of(heap, sealed)?;
    let mut ranked = ranked(heap, &ranks)?;
    ranked.sort_by_key(|ranked| ranked.rank)?;
    unranked(heap, ranked.as_slice())
}
