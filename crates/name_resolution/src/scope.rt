// The names of a block as two maps: its atoms by alias, and its columns by name.
ghost use Rattle.std.specs.List.{list_any};
ghost use Rattle.std.specs.Prelude.{false, Some, ◌≡◌, ◌++◌, ◌∷◌, ◌≤◌, [], ℕ, List, Option, IfOk, OnOk, if◌then◌else◌, bytes_eq, take, length};
ghost use Rattle.std.specs.BTreeMap.{get_by, BTreeMap};
ghost use Rattle.catalogue.specs.Schema.{table_named};
ghost use Rattle.sql_text.specs.declared.tree.ColumnRef.{ColumnRef};
ghost use Rattle.name_resolution.specs.declared.meaning.BoundColumn.{BoundColumn};
ghost use Rattle.name_resolution.specs.Meanings.{Source, columns_named, columns_in, meaning, sources};
ghost use Rattle.beas_core.specs.Results.{IsRefusedAs};
ghost use Rattle.name_resolution.specs.Refusing.{first, repeated_among};
ghost use Rattle.name_resolution.specs.Scopes.{found_in, found_at, one_more, found_by, names_of, IsScope};

use crate::found::{AtomColumns, Found};
use crate::meaning::BoundColumn;
use beas_core::{Column, Duplicate, Fail, Name, NoMemory, Refusal, is_text};
use catalogue::Catalogue;
use sql_text::{ColumnRef, FromItem};
use std::alloc::Global;
use std::collections::BTreeMap;

/// The atoms of a block by alias, and its columns by name. Both are found by the order of the names, so that no names take
/// longer than others.
#[derive(Drop)]
pub struct Scope<'a> {
    /// For each alias its atom with that atom's columns.
    pub atoms: BTreeMap<&'a str, AtomColumns<'a>>,
    /// For each name of a column, over all atoms, the one column that has it, or that there are several.
    pub columns: BTreeMap<&'a str, Found>,
}

/// The columns of the table with this name, none where there is no such table.
#[tactic(auto, unfolding(crate::specs::Meanings::columns_named))]
pub fn columns_named<'a>(catalogue: &'a Catalogue, name: &Name) -> &'a [Column]
    ensures columns { result.now ≡ columns_named catalogue.now name.now }
    ensures few { length result.now ≤ 64 }
{
    match catalogue.table(name) {
        Some(id) => catalogue.columns(id).as_slice(),
        None => &[],
    }
}

/// What a name stands for where it stands for this column too.
fn one_more(before: Option<Found>, column: BoundColumn) -> Found
    ensures { result ≡ one_more before column }
{
    match before {
        Some(_) => Found::Several,
        None => Found::One(column),
    }
}

/// The columns of an atom that have this name.
pub fn find_in(atom: usize, columns: &[Column], name: &str) -> Option<Found>
    ensures { result ≡ found_in (columns_in atom name.now columns.now) }
{
    let mut found = None;
    for (place, column) in columns.iter().enumerate() {
        if is_text(name, column.name.as_str()) {
            let kind = column.kind;
            found = Some(one_more(
                found,
                BoundColumn {
                    atom,
                    column: place,
                    kind,
                },
            ));
        }
    }
    found
}

/// Adds a column to those with its name.
fn add_column<'a>(
    by_name: &mut BTreeMap<&'a str, Found>,
    name: &'a str,
    column: BoundColumn,
) -> Result<(), NoMemory>
    ensures { OnOk result ((q : List ℕ) → found_at by_name.new q
        ≡ (if bytes_eq name.now q then Some (one_more (found_at by_name.old name.now) column)
        else found_at by_name.old q)) }
{
    let more = one_more(by_name.get(name).copied(), column);
    by_name.insert(name, more)?;
    Ok(())
}

/// Adds the columns of an atom to those with their names.
fn add_columns<'a>(
    by_name: &mut BTreeMap<&'a str, Found>,
    atom: usize,
    columns: &'a [Column],
) -> Result<(), NoMemory>
    ensures { OnOk result ((q : List ℕ) (before : List BoundColumn) → found_at by_name.old q ≡ found_in before
        → found_at by_name.new q ≡ found_in (before ++ columns_in atom q columns.now)) }
{
    for (place, column) in columns.iter().enumerate() {
        let kind = column.kind;
        add_column(
            by_name,
            column.name.as_str(),
            BoundColumn {
                atom,
                column: place,
                kind,
            },
        )?;
    }
    Ok(())
}

/// The names of a block. It is refused where an alias stands twice.
pub fn scope_of<'a>(
    alloc: Global,
    catalogue: &'a Catalogue,
    items: &'a [FromItem],
) -> Result<Scope<'a>, Fail>
    ensures names { IfOk result (λ scope. (ref : ColumnRef)
        → names_of scope ref ≡ meaning (sources catalogue.now items.now) ref) }
    ensures repeated { IsRefusedAs result (first (repeated_among items.now)) }
{
    let mut scope = Scope::new(alloc);
    for (atom, item) in items.iter().enumerate() {
        if scope.atoms.contains_key(item.alias.as_str()) {
            // A call that lets it go is proved in far less time than drops at both ways out.
            drop(scope);
            return Err(Fail::Refused(Refusal::DuplicateName {
                name: item.alias.copy(alloc)?,
            }));
        }
        scope.add(
            atom,
            item.alias.as_str(),
            columns_named(catalogue, &item.table),
        )?;
    }
    Ok(scope)
}

impl<'a> Scope<'a> {
    fn new(alloc: Global) -> Scope<'a>
        ensures { IsScope [] result }
    {
        Scope {
            atoms: BTreeMap::new(alloc),
            columns: BTreeMap::new(alloc),
        }
    }

    /// Adds an atom, counted from 0, whose alias no atom has yet.
    fn add(&mut self, atom: usize, alias: &'a str, columns: &'a [Column]) -> Result<(), NoMemory>
        ensures { OnOk result ((sources : List Source) → length sources ≡ atom → IsScope sources self.old
            → list_any (λ s. bytes_eq s.alias alias.now) sources ≡ false
            → IsScope (sources ++ record { alias = alias.now; columns = columns.now } ∷ []) self.new) }
    {
        self.atoms.insert(alias, AtomColumns { atom, columns })?;
        add_columns(&mut self.columns, atom, columns)
    }

    /// What the maps have of a ref.
    pub fn find(&self, reference: &ColumnRef) -> Option<Found>
        ensures { result ≡ found_by self.now reference.now }
    {
        match &reference.table {
            Some(alias) => match self.atoms.get(alias.as_str()) {
                Some(atom) => find_in(atom.atom, atom.columns, reference.column.as_str()),
                None => None,
            },
            None => self.columns.get(reference.column.as_str()).copied(),
        }
    }
}

/// An equal name, where there is one.
pub fn copy_of(alloc: Global, name: &Option<Name>) -> Result<Option<Name>, NoMemory>
    ensures { IfOk result (λ copy. copy ≡ name.now) }
{
    match name {
        Some(name) => Ok(Some(name.copy(alloc)?)),
        None => Ok(None),
    }
}
