// Binds the conditions of a DELETE.
ghost use Rattle.std.specs.Prelude.{◌≡◌, ◌<◌, ◌^◌, ◌∷◌, [], ℕ, List, IfOk, length};
ghost use Rattle.beas_core.specs.Shapes.{BlockIsWellFormed};
ghost use Rattle.catalogue.specs.Queries.{BlockIsOver};
ghost use Rattle.name_resolution.specs.Binding.{delete_block, delete_kinds, delete_refusals, bound_delete, places_of_kinds};
ghost use Rattle.name_resolution.specs.LookedUp.{looked_up, bound_block, BlockIsSmall};
ghost use Rattle.beas_core.specs.Results.{IsRefusedAs};
ghost use Rattle.name_resolution.specs.Refusing.{first, repeated_among};

use crate::building::bound_block;
use crate::kinds::{Flaw, Kind};
use crate::looking_up::{atoms_of, conditions_of, want_table};
use crate::meaning::LookedUp;
use crate::names::names_of_block;
use crate::refusing::refuse_block;
use beas_core::{Block, Duplicate, Fail, Limits, List, Name, NoMemory};
use catalogue::{Catalogue, recall_soundness};
use sql_text::{Cond, FromItem};
use std::alloc::Global;

/// The kinds of refusals that come after an unknown table, in their order.
const KINDS: [Kind; 4] = [
    Kind::OfMeaning(Flaw::UnknownColumn),
    Kind::OfMeaning(Flaw::NumberRange),
    Kind::OfMeaning(Flaw::TextTooLong),
    Kind::Types,
];

/// The items of the block: the table, whose alias is its name. What is let go early is let go by a call, whose proof is
/// far shorter than that of the drops at the end of a scope.
fn items_of(alloc: Global, table: &Name) -> Result<List<FromItem>, NoMemory>
    ensures { IfOk result (λ items. items ≡ record { table = table.now; alias = table.now } ∷ []) }
{
    let name = table.copy(alloc)?;
    match table.copy(alloc) {
        Ok(alias) => {
            let mut items = List::new(alloc);
            items.push(FromItem { table: name, alias })?;
            Ok(items)
        }
        Err(why) => {
            drop(name);
            Err(why)
        }
    }
}

/// A block of these items without output, with its names looked up. It is refused where an alias stands twice.
fn look_up_over(
    alloc: Global,
    catalogue: &Catalogue,
    items: &[FromItem],
    conditions: &[Cond],
) -> Result<LookedUp, Fail>
    ensures block { IfOk result (λ found. (table : List ℕ) → items.now ≡ record { table = table; alias = table } ∷ []
        → found ≡ looked_up catalogue.now (delete_block table conditions.now)) }
    ensures repeated { IsRefusedAs result (first (repeated_among items.now)) }
{
    let names = names_of_block(alloc, catalogue, items)?;
    let bound = conditions_of(alloc, &names, conditions);
    drop(names);
    let conditions = bound?;
    match atoms_of(alloc, catalogue, items) {
        Ok(atoms) => Ok(LookedUp {
            atoms,
            star: false,
            items: List::new(alloc),
            kinds: List::new(alloc),
            conditions,
        }),
        Err(NoMemory) => {
            drop(conditions);
            Err(Fail::NoMemory)
        }
    }
}

/// The block of one atom, whose alias is the table's name, with its names looked up.
fn look_up(
    alloc: Global,
    catalogue: &Catalogue,
    table: &Name,
    conditions: &[Cond],
) -> Result<LookedUp, Fail>
    ensures block { IfOk result (λ found. found ≡ looked_up catalogue.now (delete_block table.now conditions.now)) }
    ensures never_refused { IsRefusedAs result (first []) }
{
    let items = items_of(alloc, table)?;
    look_up_over(alloc, catalogue, items.as_slice(), conditions)
}

/// Refuses the first place of these kinds in a block, if there is one: all places of a kind come before those of the
/// next.
fn refuse_kinds(
    alloc: Global,
    kinds: &[Kind],
    limits: &Limits,
    block: &LookedUp,
) -> Result<(), Fail>
    requires { length block.now.conditions < 2 ^ 32 }
    ensures { IsRefusedAs result (first (places_of_kinds limits.now block.now kinds.now)) }
{
    for kind in kinds {
        refuse_block(alloc, *kind, limits, &[], 1, block)?;
    }
    Ok(())
}

/// The block of one with its names looked up. It is refused at its first place of the kinds above, if there is one.
fn bound_if_sound(alloc: Global, limits: &Limits, block: &LookedUp) -> Result<Block, Fail>
    requires few { length block.now.conditions < 2 ^ 32 }
    requires small { BlockIsSmall block.now }
    ensures refused { IsRefusedAs result (first (places_of_kinds limits.now block.now delete_kinds)) }
    ensures block { IfOk result (λ bound. bound ≡ bound_block block.now) }
{
    refuse_kinds(alloc, &KINDS, limits, block)?;
    Ok(bound_block(alloc, block)?)
}

/// Binds the conditions of a DELETE as a block of one atom without output.
pub fn bind_delete(
    alloc: Global,
    catalogue: &Catalogue,
    limits: &Limits,
    table: &Name,
    conditions: &List<Cond>,
) -> Result<Block, Fail>
    requires { length conditions.now < 2 ^ 32 }
    ensures refused { IsRefusedAs result (first (delete_refusals limits.now catalogue.now table.now conditions.now)) }
    ensures block { IfOk result (λ block. block ≡ bound_delete catalogue.now table.now conditions.now) }
    ensures well_formed { IfOk result BlockIsWellFormed }
    ensures over { IfOk result (BlockIsOver catalogue.now) }
    ensures one { IfOk result (λ block. length block.atoms ≡ 1) }
{
    recall_soundness(catalogue);
    want_table(alloc, catalogue, table)?;
    let block = look_up(alloc, catalogue, table, conditions.as_slice())?;
    bound_if_sound(alloc, limits, &block)
}
