// Looks the names of blocks up.
ghost use Rattle.std.specs.Prelude.{◌≡◌, ◌++◌, ◌∷◌, ◌≤◌, [], IfOk, OnOk, map, length, if◌then◌else◌, filter_map};
ghost use Rattle.std.specs.List.{flat_map};
ghost use Rattle.name_resolution.specs.Binding.{blocks_of};
ghost use Rattle.name_resolution.specs.LookedUp.{atom_of, looked_up, output_kinds, column_of};
ghost use Rattle.name_resolution.specs.Meanings.{columns_named, condition, meaning, sources};
ghost use Rattle.beas_core.specs.Results.{IsRefusedAs};
ghost use Rattle.name_resolution.specs.Refusing.{first, table_refusals, unknown_tables, repeated_aliases};
ghost use Rattle.name_resolution.specs.Scopes.{told_by};

use crate::meaning::{BoundColumn, Condition, LookedUp, Meaning};
use crate::names::{Names, names_of_block};
use crate::scope::columns_named;
use beas_core::{Atom, ColType, Duplicate, Fail, List, Name, NoMemory, Refusal, TableId};
use catalogue::Catalogue;
use sql_text::{BlockTree, ColumnRef, Cond, FromItem};
use std::alloc::Global;

/// Refuses a name that no table has.
#[tactic(auto, unfolding(crate::specs::Refusing::table_refusals))]
pub fn want_table(alloc: Global, catalogue: &Catalogue, name: &Name) -> Result<(), Fail>
    ensures { IsRefusedAs result (first (table_refusals catalogue.now name.now)) }
{
    match catalogue.table(name) {
        Some(_) => Ok(()),
        None => Err(Fail::Refused(Refusal::UnknownTable {
            name: name.copy(alloc)?,
        })),
    }
}

/// Refuses the first of a block's table names that no table has.
pub fn want_tables(alloc: Global, catalogue: &Catalogue, items: &[FromItem]) -> Result<(), Fail>
    ensures { IsRefusedAs result (first (flat_map (λ item. table_refusals catalogue.now item.table) items.now)) }
{
    for item in items {
        want_table(alloc, catalogue, &item.table)?;
    }
    Ok(())
}

#[tactic(auto, unfolding(crate::specs::LookedUp::atom_of, crate::specs::Meanings::columns_named))]
fn atom_of(catalogue: &Catalogue, item: &FromItem) -> Atom
    ensures { result ≡ atom_of catalogue.now item.now }
{
    match catalogue.table(&item.table) {
        Some(table) => Atom {
            table,
            width: catalogue.columns(table).len() as u16,
        },
        None => Atom {
            table: TableId(0),
            width: 0,
        },
    }
}

/// The atoms of a block. A name that no table has would stand for table 0, but callers have refused it before.
pub fn atoms_of(
    alloc: Global,
    catalogue: &Catalogue,
    items: &[FromItem],
) -> Result<List<Atom>, NoMemory>
    ensures { IfOk result (λ atoms. atoms ≡ map (atom_of catalogue.now) items.now) }
{
    let mut atoms = List::from_vec(Vec::with_capacity(alloc, items.len())?);
    for item in items {
        atoms.push(atom_of(catalogue, item))?;
    }
    Ok(atoms)
}

/// What refs stand for, in order.
fn meanings_of(
    alloc: Global,
    names: &Names,
    references: &[ColumnRef],
) -> Result<List<Meaning>, NoMemory>
    ensures { IfOk result (λ meanings. meanings ≡ map (told_by names.now) references.now) }
{
    let mut meanings = List::from_vec(Vec::with_capacity(alloc, references.len())?);
    for reference in references {
        meanings.push(names.meaning(alloc, reference)?)?;
    }
    Ok(meanings)
}

/// Adds a condition with what its sides stand for.
fn push_condition(
    alloc: Global,
    names: &Names,
    all: &mut List<Condition>,
    cond: &Cond,
) -> Result<(), NoMemory>
    ensures { OnOk result (all.new ≡ all.old ++ condition (told_by names.now) cond.now ∷ []) }
{
    let bound = names.condition(alloc, cond)?;
    all.push(bound)
}

/// Conditions with what their sides stand for. No name is refused here.
pub fn conditions_of(
    alloc: Global,
    names: &Names,
    conditions: &[Cond],
) -> Result<List<Condition>, NoMemory>
    ensures { IfOk result (λ bound. bound ≡ map (condition (told_by names.now)) conditions.now) }
{
    let mut all = List::from_vec(Vec::with_capacity(alloc, conditions.len())?);
    for condition in conditions {
        push_condition(alloc, names, &mut all, condition)?;
    }
    Ok(all)
}

/// The column that something stands for.
pub fn column_of(meaning: &Meaning) -> Option<BoundColumn>
    ensures { result ≡ column_of meaning.now }
{
    match meaning {
        Meaning::At(column) => Some(*column),
        _ => None,
    }
}

/// The types of the columns that items stand for.
fn kinds_of(alloc: Global, items: &[Meaning]) -> Result<List<ColType>, NoMemory>
    ensures { IfOk result (λ kinds. kinds ≡ map (λ c. c.kind) (filter_map column_of items.now)) }
{
    let mut kinds = List::from_vec(Vec::with_capacity(alloc, items.len())?);
    for item in items {
        if let Some(column) = column_of(item) {
            kinds.push(column.kind)?;
        }
    }
    Ok(kinds)
}

fn push_kinds(
    catalogue: &Catalogue,
    table: &Name,
    kinds: &mut List<ColType>,
) -> Result<(), NoMemory>
    ensures { OnOk result (kinds.new ≡ kinds.old ++ map (λ c. c.kind) (columns_named catalogue.now table.now)) }
{
    for column in columns_named(catalogue, table) {
        kinds.push(column.kind)?;
    }
    Ok(())
}

/// The types of all columns of all atoms.
fn all_kinds(
    alloc: Global,
    catalogue: &Catalogue,
    items: &[FromItem],
) -> Result<List<ColType>, NoMemory>
    ensures { IfOk result (λ kinds. kinds
        ≡ flat_map (λ s. map (λ c. c.kind) s.columns) (sources catalogue.now items.now)) }
{
    let mut kinds = List::new(alloc);
    for item in items {
        push_kinds(catalogue, &item.table, &mut kinds)?;
    }
    Ok(kinds)
}

fn output_kinds(
    alloc: Global,
    catalogue: &Catalogue,
    block: &BlockTree,
    items: &[Meaning],
) -> Result<List<ColType>, NoMemory>
    ensures { IfOk result (λ kinds. kinds
        ≡ output_kinds block.now.star (sources catalogue.now block.now.from_items) items.now) }
{
    if block.star {
        return all_kinds(alloc, catalogue, block.from_items.as_slice());
    }
    kinds_of(alloc, items)
}

/// The block with its names looked up. It is refused where an alias stands twice.
pub fn look_up(alloc: Global, catalogue: &Catalogue, block: &BlockTree) -> Result<LookedUp, Fail>
    ensures block { IfOk result (λ found. found ≡ looked_up catalogue.now block.now) }
    ensures repeated { IsRefusedAs result (first (repeated_aliases block.now)) }
{
    let items = block.from_items.as_slice();
    let names = names_of_block(alloc, catalogue, items)?;
    let meanings = meanings_of(alloc, &names, block.items.as_slice())?;
    let bound = conditions_of(alloc, &names, block.conditions.as_slice());
    // Let go by calls, whose proofs are far shorter than those of the drops at the end of a scope.
    drop(names);
    let conditions = bound?;
    let kinds = output_kinds(alloc, catalogue, block, meanings.as_slice())?;
    match atoms_of(alloc, catalogue, items) {
        Ok(atoms) => Ok(LookedUp {
            atoms,
            star: block.star,
            items: meanings,
            kinds,
            conditions,
        }),
        Err(NoMemory) => {
            drop(meanings);
            drop(kinds);
            drop(conditions);
            Err(Fail::NoMemory)
        }
    }
}
