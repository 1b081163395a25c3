// Binds a query of one block of at most four atoms at once where nothing in it is to be refused, as in most queries. Where
// something may be, it answers nothing, and `binding` finds out what.
ghost use Rattle.std.specs.Prelude.{◌≡◌, ◌<◌, ◌==◌, ◌∷◌, true, false, Some, None, [], IfOk, MatchOption, map, length};
ghost use Rattle.std.specs.List.{list_any};
ghost use Rattle.beas_core.specs.declared.query.Block.{Block as MadeBlock};
ghost use Rattle.beas_core.specs.Trees.{QueryTree};
ghost use Rattle.sql_text.specs.Trees as written;
ghost use Rattle.catalogue.specs.Schema.{SchemaIsSound};
ghost use Rattle.binder.specs.AtOnce.{AddsSound, ArePlacesOf, IsSoundOutput, IsSoundOver};
ghost use Rattle.name_resolution.specs.Binding.{refusals, bound_query};
ghost use Rattle.name_resolution.specs.LookedUp.{looked_up, bound_block, ConditionIsSmall, IsSmall};
ghost use Rattle.name_resolution.specs.Meanings.{condition};
ghost use Rattle.name_resolution.specs.Refusing.{first};
ghost use Rattle.name_resolution.specs.Scopes.{told_by};

use beas_core::{Atom, Block, Fail, Limits, List, NoMemory, Place, Query, QueryNode};
use catalogue::Catalogue;
use name_resolution::{
    Condition, FEW, Meaning, NamedAtom, Names, add_condition, all_places, atoms_in_order,
    condition_has_flaw, is_mixed, place_of,
};
use sql_text::{BlockTree, ColumnRef, Cond, SelectNode, SelectTree};
use std::alloc::Global;

/// Adds what a condition adds, where its sides have no flaw and agree in type. Whether it is so.
fn add_if_sound(
    alloc: Global,
    limit: u32,
    block: &mut Block,
    condition: &Condition,
) -> Result<bool, NoMemory>
    requires { ConditionIsSmall condition.now }
    ensures { IfOk result (λ sound. sound ≡ true → AddsSound limit block.old block.new (condition.now ∷ [])) }
{
    if condition_has_flaw(limit, condition) || is_mixed(condition) {
        return Ok(false);
    }
    add_condition(alloc, block, condition)?;
    Ok(true)
}

/// Looks up what the sides of a condition stand for, and adds what it adds, where they have no flaw and agree in type.
/// Whether it is so.
fn look_up_and_add(
    alloc: Global,
    names: &Names,
    limit: u32,
    block: &mut Block,
    cond: &Cond,
) -> Result<bool, NoMemory>
    requires { (ref : ColumnRef) → IsSmall (told_by names.now ref) }
    ensures { IfOk result (λ sound. sound ≡ true
        → AddsSound limit block.old block.new (condition (told_by names.now) cond.now ∷ [])) }
{
    // One exit alone drops the condition: with three, the proof takes minutes more.
    let condition = names.condition(alloc, cond)?;
    add_if_sound(alloc, limit, block, &condition)
}

/// Adds what conditions add, where the sides of each have no flaw and agree in type. Whether it is so.
fn add_all_if_sound(
    alloc: Global,
    names: &Names,
    limit: u32,
    block: &mut Block,
    conditions: &[Cond],
) -> Result<bool, NoMemory>
    requires { (ref : ColumnRef) → IsSmall (told_by names.now ref) }
    ensures { IfOk result (λ sound. sound ≡ true
        → AddsSound limit block.old block.new (map (condition (told_by names.now)) conditions.now)) }
{
    for cond in conditions {
        if !look_up_and_add(alloc, names, limit, block, cond)? {
            return Ok(false);
        }
    }
    Ok(true)
}

/// The atoms of a block without their aliases.
fn atoms_of_named(alloc: Global, named: &[NamedAtom]) -> Result<List<Atom>, NoMemory>
    ensures { IfOk result (λ atoms. atoms ≡ map (λ a. a.atom) named.now) }
{
    let mut atoms = Vec::with_capacity(alloc, named.len())?;
    for atom in named {
        atoms.push(atom.atom)?;
    }
    Ok(List::from_vec(atoms))
}

/// Whether an atom has no column. Each table has one, so the table of such an atom isn't there.
fn any_is_empty(atoms: &[Atom]) -> bool
    ensures { result ≡ list_any (λ a. a.width == 0) atoms.now }
{
    for atom in atoms {
        if atom.width == 0 {
            return true;
        }
    }
    false
}

/// The places of the columns that refs stand for, where each stands for one.
fn places_if_sound(
    alloc: Global,
    names: &Names,
    references: &[ColumnRef],
) -> Result<Option<List<Place>>, NoMemory>
    requires { (ref : ColumnRef) → IsSmall (told_by names.now ref) }
    ensures { IfOk result (λ made. MatchOption made (Unit {0})
        (λ places. ArePlacesOf places (map (told_by names.now) references.now))) }
{
    let mut places = List::from_vec(Vec::with_capacity(alloc, references.len())?);
    for reference in references {
        let Meaning::At(column) = names.meaning(alloc, reference)? else {
            return Ok(None);
        };
        places.push(place_of(column))?;
    }
    Ok(Some(places))
}

/// The outputs of a block of these atoms, where they have no flaw and aren't too many.
fn output_if_sound(
    alloc: Global,
    limits: &Limits,
    names: &Names,
    atoms: &[Atom],
    tree: &BlockTree,
) -> Result<Option<List<Place>>, NoMemory>
    requires few { length atoms.now < 65536 }
    requires small { (ref : ColumnRef) → IsSmall (told_by names.now ref) }
    ensures { IfOk result (λ made. MatchOption made (Unit {0})
        (λ places. IsSoundOutput limits.now (told_by names.now) atoms.now tree.now places)) }
{
    let references = tree.items.as_slice();
    if references.len() > usize::from(limits.outputs) {
        return Ok(None);
    }
    if !tree.star {
        return places_if_sound(alloc, names, references);
    }
    // A star stands alone.
    if !references.is_empty() {
        return Ok(None);
    }
    Ok(Some(all_places(alloc, atoms)?))
}

/// The block of these atoms with the outputs and the conditions of a tree, where they have no flaw.
fn bound_over(
    alloc: Global,
    limits: &Limits,
    names: &Names,
    atoms: List<Atom>,
    tree: &BlockTree,
) -> Result<Option<Block>, NoMemory>
    requires few { length atoms < 65536 }
    requires small { (ref : ColumnRef) → IsSmall (told_by names.now ref) }
    ensures { IfOk result (λ bound. (block : MadeBlock) → bound ≡ Some block
        → IsSoundOver limits.now (told_by names.now) atoms tree.now block) }
{
    let Some(output) = output_if_sound(alloc, limits, names, atoms.as_slice(), tree)? else {
        return Ok(None);
    };
    let mut block = Block {
        atoms,
        equalities: List::new(alloc),
        constants: List::new(alloc),
        comparisons: List::new(alloc),
        output,
    };
    let conditions = tree.conditions.as_slice();
    if add_all_if_sound(alloc, names, limits.text, &mut block, conditions)? {
        return Ok(Some(block));
    }
    Ok(None)
}

/// The bound block, where nothing in it is to be refused and its atoms are few.
fn block_at_once(
    alloc: Global,
    catalogue: &Catalogue,
    limits: &Limits,
    block: &BlockTree,
) -> Result<Option<Block>, NoMemory>
    requires { SchemaIsSound catalogue.now }
    ensures made { IfOk result (λ bound. (made : MadeBlock) → bound ≡ Some made
        → made ≡ bound_block (looked_up catalogue.now block.now)) }
    ensures unrefused { IfOk result (λ bound. (made : MadeBlock) → bound ≡ Some made
        → first (refusals limits.now catalogue.now (written.Block block.now)) ≡ None) }
{
    let items = block.from_items.as_slice();
    if items.len() > FEW || items.len() > usize::from(limits.atoms) {
        return Ok(None);
    }
    let named = match atoms_in_order(alloc, catalogue, items) {
        Ok(named) => named,
        Err(Fail::Refused(_)) => return Ok(None),
        Err(Fail::NoMemory) => return Err(NoMemory),
    };
    let atoms = atoms_of_named(alloc, &named)?;
    if any_is_empty(atoms.as_slice()) {
        return Ok(None);
    }
    bound_over(alloc, limits, &Names::Few(named), atoms, block)
}

/// The bound query, where it is one block of few atoms, and nothing in it is to be refused.
pub fn bound_at_once(
    alloc: Global,
    catalogue: &Catalogue,
    limits: &Limits,
    tree: &SelectTree,
) -> Result<Option<Query>, NoMemory>
    requires { SchemaIsSound catalogue.now }
    ensures query { IfOk result (λ bound. (query : QueryTree) → bound ≡ Some query
        → query ≡ bound_query catalogue.now tree.now) }
    ensures unrefused { IfOk result (λ bound. (query : QueryTree) → bound ≡ Some query
        → first (refusals limits.now catalogue.now tree.now) ≡ None) }
{
    let SelectNode::Block(block) = &tree.node else {
        return Ok(None);
    };
    match block_at_once(alloc, catalogue, limits, block)? {
        Some(block) => Ok(Some(Query {
            node: QueryNode::Block(block),
        })),
        None => Ok(None),
    }
}
