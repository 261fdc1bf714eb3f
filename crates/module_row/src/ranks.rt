//! The ranks of the items of a sealed module.
ghost use Rattle.std.specs.Prelude.{◌≡◌, ◌+◌, ◌<◌, ◌≤◌, ◌^◌, ◌++◌, IfOk, map, length};
ghost use Rattle.std.specs.List.{flat_map, AllByRecursion};
ghost use Rattle.std.specs.Option.{option_to_list};
ghost use Rattle.rules.specs.Once.{inits};
ghost use Rattle.rules.specs.Sizes.{sizes};
ghost use Rattle.rules.specs.Items.{type_of, init_of, pending_of, at};
ghost use Rattle.draft.specs.State.{state};
ghost use Rattle.items.specs.Item.{shown};
ghost use Rattle.valid.specs.Module.{shown_module};
ghost use Rattle.promises.specs.Inside.{ItemInside, ItemsInside};
ghost use Rattle.promises.specs.Rows.{above, room, wide, type_rank, expression_rank, value_ranks};
ghost use Rattle.module_row.specs.Rooms.{rooms_of};

use crate::ranked::Ranked;
use crate::rows::RowItem;
use draft::state::SlotTable;
use ir::handle::Table;
use items::item::Item;
use items::section::Section;
use seal::sealed::Sealed;
use std::alloc::{AllocError, Global};
use valid::constants::own;
use valid::module::Module;

/// A sealed module, and for how many global expressions the types up to each wait.
#[derive(Drop)]
pub(crate) struct Ranks<'a> {
    module: Module<'a>,
    rooms: Vec<usize>,
    ghost rooms_are: { rooms.items ≡ rooms_of (shown_module «module») },
    ghost few: { above (flat_map (inits (shown_module «module»)) (shown_module «module»).types) ≤ 2 ^ 32 },
}

/// The init of each override, where it has one.
fn inits(heap: Global, module: Module<'_>) -> Result<Vec<Option<u32>>, AllocError>
    ensures { IfOk result (λ v. map option_to_list v.items ≡ map init_of (shown_module «module».entry).overrides) }
{
    let mut inits = Vec::new(heap);
    for value in module.items(Section::Numbered(SlotTable::Overrides)) {
        inits.push(own(value, Table::Expressions))?;
    }
    Ok(inits)
}

/// For how many global expressions a size waits that has an init, or none.
fn waits(init: Option<u32>) -> usize
    ensures above { result ≡ above (option_to_list init) }
    ensures few { result ≤ 2 ^ 32 }
{
    match init {
        Some(init) => init as usize + 1,
        None => 0,
    }
}

/// For how many global expressions a type waits by its own size.
fn waits_for(inits: &[Option<u32>], ty: Item<'_>) -> usize
    requires { AllByRecursion (λ o. o < length inits.now) (pending_of (shown ty)) }
    ensures above { result ≡ above (flat_map option_to_list (flat_map (at inits.now) (pending_of (shown ty.entry)))) }
    ensures few { result ≤ 2 ^ 32 }
{
    match own(ty, Table::Overrides) {
        Some(size) => waits(inits[size as usize]),
        None => 0,
    }
}

/// For how many global expressions the types up to each wait.
fn rooms(heap: Global, module: Module<'_>) -> Result<Vec<usize>, AllocError>
    requires { ItemsInside (sizes (shown_module «module»)) (shown_module «module»).types }
    ensures rooms { IfOk result (λ v. v.items ≡ rooms_of (shown_module «module».entry)) }
    ensures few { IfOk result (λ _. above (flat_map (inits (shown_module «module».entry)) (shown_module «module».entry).types) ≤ 2 ^ 32) }
{
    let inits = inits(heap, module)?;
    let mut rooms = Vec::new(heap);
    let mut room = 0;
    for ty in module.items(Section::Numbered(SlotTable::Types)) {
        room = room.max(waits_for(inits.as_slice(), ty));
        rooms.push(room)?;
    }
    Ok(rooms)
}

impl<'a> Ranks<'a> {
    ghost use Rattle.seal.specs.Sealed.{IsSealedDraft, sealed_records};
    ghost use Rattle.promises.specs.Rows.RowItem.{type, override, constant, expression};
    ghost use Rattle.module_row.specs.Ranked.{shown_ranked, with_ranks};

    /// The module of a sealed draft, and its rooms.
    pub fn of(heap: Global, sealed: &Sealed<'a>) -> Result<Ranks<'a>, AllocError>
        requires { IsSealedDraft sealed.now }
        ensures { IfOk result (λ r. shown_module r.«module» ≡ (state (sealed_records sealed.now)).built) }
    {
        let module = Module::of(sealed.view()).unwrap();
        let rooms = rooms(heap, module)?;
        Ok(Ranks { module, rooms })
    }

    /// How far the ranks of an expression and of the next one are apart.
    fn wide(&self) -> u128
        ensures wide { result ≡ wide (shown_module self.now.«module») }
        ensures below { result < 2 ^ 64 + 4 }
    {
        2 * self.module.sizes.types as u128 + 4
    }

    /// The rank of a type.
    fn type_rank(&self, ty: usize) -> u128
        requires { ty < length (shown_module self.now.«module»).types }
        ensures rank { result ≡ type_rank (shown_module self.now.«module») ty }
        ensures below { result + 1 < 2 ^ 128 }
    {
        let room = self.rooms[ty];
        room as u128 * self.wide() + (2 * ty as u128 + 1)
    }

    /// The rank of a global expression.
    fn expression_rank(&self, expression: usize) -> u128
        requires { expression < 2 ^ 63 }
        ensures rank { result ≡ expression_rank (shown_module self.now.«module») expression }
        ensures below { result + 1 < 2 ^ 128 }
    {
        expression as u128 * self.wide() + (2 * self.module.sizes.types as u128 + 3)
    }

    /// The least rank behind the type of an override or a constant, or 0 if it has none.
    fn behind_type(&self, value: Item<'_>) -> u128
        requires { ItemInside (sizes (shown_module self.now.«module»)) (shown value) }
        ensures { result ≡ above (map (type_rank (shown_module self.now.«module»)) (type_of (shown value.entry))) }
    {
        match own(value, Table::Types) {
            Some(ty) => self.type_rank(ty as usize) + 1,
            None => 0,
        }
    }

    /// The least rank behind the init of an override or a constant, or 0 if it has none.
    fn behind_init(&self, value: Item<'_>) -> u128
        requires { ItemInside (sizes (shown_module self.now.«module»)) (shown value) }
        ensures { result ≡ above (map (expression_rank (shown_module self.now.«module»)) (init_of (shown value.entry))) }
    {
        match own(value, Table::Expressions) {
            Some(init) => self.expression_rank(init as usize) + 1,
            None => 0,
        }
    }

    /// The rank of an override or a constant.
    fn value_rank(&self, value: Item<'_>) -> u128
        requires { ItemInside (sizes (shown_module self.now.«module»)) (shown value) }
        ensures { result ≡ above (value_ranks (shown_module self.now.«module») (shown value.entry)) }
    {
        self.behind_type(value).max(self.behind_init(value))
    }

    /// Appends the types with their ranks.
    pub fn rank_types(&self, ranked: &mut Vec<Ranked>) -> Result<(), AllocError>
        ensures { IfOk result (λ _. map shown_ranked ranked.new.items ≡ map shown_ranked ranked.old.items ++ with_ranks (shown_module self.now.«module») type (length (shown_module self.now.«module»).types)) }
    {
        for number in 0..self.module.sizes.types {
            ranked.push(Ranked {
                rank: self.type_rank(number),
                item: RowItem::Type(number),
            })?;
        }
        Ok(())
    }

    /// Appends the overrides with their ranks.
    pub fn rank_overrides(&self, ranked: &mut Vec<Ranked>) -> Result<(), AllocError>
        requires { ItemsInside (sizes (shown_module self.now.«module»)) (shown_module self.now.«module»).overrides }
        ensures { IfOk result (λ _. map shown_ranked ranked.new.items ≡ map shown_ranked ranked.old.items ++ with_ranks (shown_module self.now.«module») override (length (shown_module self.now.«module»).overrides)) }
    {
        for (number, value) in self
            .module
            .items(Section::Numbered(SlotTable::Overrides))
            .enumerate()
        {
            ranked.push(Ranked {
                rank: self.value_rank(value),
                item: RowItem::Override(number),
            })?;
        }
        Ok(())
    }

    /// Appends the constants with their ranks.
    pub fn rank_constants(&self, ranked: &mut Vec<Ranked>) -> Result<(), AllocError>
        requires { ItemsInside (sizes (shown_module self.now.«module»)) (shown_module self.now.«module»).constants }
        ensures { IfOk result (λ _. map shown_ranked ranked.new.items ≡ map shown_ranked ranked.old.items ++ with_ranks (shown_module self.now.«module») constant (length (shown_module self.now.«module»).constants)) }
    {
        for (number, value) in self
            .module
            .items(Section::Numbered(SlotTable::Constants))
            .enumerate()
        {
            ranked.push(Ranked {
                rank: self.value_rank(value),
                item: RowItem::Constant(number),
            })?;
        }
        Ok(())
    }

    /// Appends the global expressions with their ranks.
    pub fn rank_expressions(&self, ranked: &mut Vec<Ranked>) -> Result<(), AllocError>
        ensures { IfOk result (λ _. map shown_ranked ranked.new.items ≡ map shown_ranked ranked.old.items ++ with_ranks (shown_module self.now.«module») expression (length (shown_module self.now.«module»).expressions)) }
    {
        for number in 0..self.module.sizes.expressions {
            ranked.push(Ranked {
                rank: self.expression_rank(number),
                item: RowItem::Expression(number),
            })?;
        }
        Ok(())
    }
}
