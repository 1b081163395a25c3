// What the names of a block stand for. A block of few atoms is walked for each name, since that takes less time than to make maps.
ghost use Rattle.std.specs.List.{list_any};
ghost use Rattle.std.specs.Prelude.{◌≡◌, Some, None, IfOk, bytes_eq, map};
ghost use Rattle.sql_text.specs.declared.tree.ColumnRef.{ColumnRef};
ghost use Rattle.name_resolution.specs.declared.meaning.Condition.TheVariants.{Between};
ghost use Rattle.name_resolution.specs.LookedUp.{atom_of};
ghost use Rattle.name_resolution.specs.Meanings.{side_meaning, columns_named, condition, meaning, named_by, sources};
ghost use Rattle.beas_core.specs.Results.{IsRefusedAs};
ghost use Rattle.name_resolution.specs.Refusing.{first, repeated_among};
ghost use Rattle.name_resolution.specs.Scopes.{found_in, found_or_more, source_of, found_of, told_by};

use crate::found::{Found, NamedAtom};
use crate::literals::literal_meaning;
use crate::meaning::{Condition, Meaning};
use crate::scope::{Scope, copy_of, find_in, scope_of};
use beas_core::{Atom, Duplicate, Fail, NoMemory, Refusal, TableId, is_text};
use catalogue::Catalogue;
use sql_text::{ColumnRef, Cond, FromItem, Side};
use std::alloc::Global;

/// So many atoms, and no more, are walked, and so many has a block at most that is bound at once.
pub const FEW: usize = 4;

/// The names of a block: its atoms, where they are few, or else maps of them.
#[derive(Drop)]
pub enum Names<'a> {
    Few(Vec<NamedAtom<'a>>),
    Many(Scope<'a>),
}

fn has_alias(atoms: &[NamedAtom], alias: &str) -> bool
    ensures { result ≡ list_any (λ a. bytes_eq a.alias.now alias.now) atoms.now }
{
    for atom in atoms {
        if is_text(alias, atom.alias) {
            return true;
        }
    }
    false
}

/// The atom of an item, with its alias. A name that no table has stands for table 0, without columns.
#[tactic(auto, unfolding(crate::specs::LookedUp::atom_of, crate::specs::Meanings::columns_named))]
fn named_atom<'a>(catalogue: &'a Catalogue, item: &'a FromItem) -> NamedAtom<'a>
    ensures atom { result.atom ≡ atom_of catalogue.now item.now }
    ensures alias { result.alias.now ≡ item.now.alias }
    ensures columns { result.columns.now ≡ columns_named catalogue.now item.now.table }
{
    let alias = item.alias.as_str();
    match catalogue.table(&item.table) {
        Some(table) => {
            let columns = catalogue.columns(table).as_slice();
            let width = columns.len() as u16;
            NamedAtom {
                atom: Atom { table, width },
                alias,
                columns,
            }
        }
        None => NamedAtom {
            atom: Atom {
                table: TableId(0),
                width: 0,
            },
            alias,
            columns: &[],
        },
    }
}

/// The atoms in order. They are refused where an alias stands twice.
pub fn atoms_in_order<'a>(
    alloc: Global,
    catalogue: &'a Catalogue,
    items: &'a [FromItem],
) -> Result<Vec<NamedAtom<'a>>, Fail>
    ensures sources { IfOk result (λ atoms. map source_of atoms.items ≡ sources catalogue.now items.now) }
    ensures atoms { IfOk result (λ atoms. map (λ a. a.atom) atoms.items ≡ map (atom_of catalogue.now) items.now) }
    ensures repeated { IsRefusedAs result (first (repeated_among items.now)) }
{
    let mut atoms = Vec::with_capacity(alloc, items.len())?;
    for item in items {
        if has_alias(&atoms, item.alias.as_str()) {
            return Err(Fail::Refused(Refusal::DuplicateName {
                name: item.alias.copy(alloc)?,
            }));
        }
        atoms.push(named_atom(catalogue, item))?;
    }
    Ok(atoms)
}

/// What is found in both together.
fn found_or_more(before: Option<Found>, more: Option<Found>) -> Option<Found>
    ensures { result ≡ found_or_more before more }
{
    match (before, more) {
        (None, more) => more,
        (Some(before), None) => Some(before),
        (Some(_), Some(_)) => Some(Found::Several),
    }
}

/// The columns with this name of the atoms with this alias.
fn find_with_alias(atoms: &[NamedAtom], alias: &str, name: &str) -> Option<Found>
    ensures { result ≡ found_in (named_by (map source_of atoms.now) (record { table = Some alias.now; column = name.now })) }
{
    let mut found = None;
    for (number, atom) in atoms.iter().enumerate() {
        if is_text(alias, atom.alias) {
            found = found_or_more(found, find_in(number, atom.columns, name));
        }
    }
    found
}

/// The columns with this name of all these atoms.
fn find_in_any(atoms: &[NamedAtom], name: &str) -> Option<Found>
    ensures { result ≡ found_in (named_by (map source_of atoms.now) (record { table = None; column = name.now })) }
{
    let mut found = None;
    for (number, atom) in atoms.iter().enumerate() {
        found = found_or_more(found, find_in(number, atom.columns, name));
    }
    found
}

/// The columns of these atoms that a ref may stand for.
fn find_among(atoms: &[NamedAtom], reference: &ColumnRef) -> Option<Found>
    ensures { result ≡ found_in (named_by (map source_of atoms.now) reference.now) }
{
    let name = reference.column.as_str();
    match &reference.table {
        Some(alias) => find_with_alias(atoms, alias.as_str(), name),
        None => find_in_any(atoms, name),
    }
}

/// The names of a block. It is refused where an alias stands twice.
pub fn names_of_block<'a>(
    alloc: Global,
    catalogue: &'a Catalogue,
    items: &'a [FromItem],
) -> Result<Names<'a>, Fail>
    ensures names { IfOk result (λ names. (ref : ColumnRef)
        → told_by names ref ≡ meaning (sources catalogue.now items.now) ref) }
    ensures repeated { IsRefusedAs result (first (repeated_among items.now)) }
{
    if items.len() <= FEW {
        return Ok(Names::Few(atoms_in_order(alloc, catalogue, items)?));
    }
    Ok(Names::Many(scope_of(alloc, catalogue, items)?))
}

impl<'a> Names<'a> {
    fn find(&self, reference: &ColumnRef) -> Option<Found>
        ensures { result ≡ found_of self.now reference.now }
    {
        match self {
            Names::Few(atoms) => find_among(atoms, reference),
            Names::Many(scope) => scope.find(reference),
        }
    }

    /// What a ref stands for.
    pub fn meaning(&self, alloc: Global, reference: &ColumnRef) -> Result<Meaning, NoMemory>
        ensures { IfOk result (λ meaning. meaning ≡ told_by self.now reference.now) }
    {
        match self.find(reference) {
            Some(Found::One(column)) => Ok(Meaning::At(column)),
            Some(Found::Several) => Ok(Meaning::Ambiguous {
                column: reference.column.copy(alloc)?,
            }),
            None => Ok(Meaning::Unknown {
                table: copy_of(alloc, &reference.table)?,
                column: reference.column.copy(alloc)?,
            }),
        }
    }

    /// What a side of a condition stands for.
    fn side(&self, alloc: Global, side: &Side) -> Result<Meaning, NoMemory>
        ensures { IfOk result (λ meaning. meaning ≡ side_meaning (told_by self.now) side.now) }
    {
        match side {
            Side::Column(reference) => self.meaning(alloc, reference),
            Side::Fixed(literal) => literal_meaning(alloc, literal),
        }
    }

    /// What the sides of a BETWEEN stand for. What is let go early is let go by a call, whose proof is far shorter than that
    /// of the drops at the end of a scope.
    fn between(
        &self,
        alloc: Global,
        value: &ColumnRef,
        low: &Side,
        high: &Side,
    ) -> Result<Condition, NoMemory>
        ensures { IfOk result (λ bound. bound ≡ Between (told_by self.now value.now)
            (side_meaning (told_by self.now) low.now) (side_meaning (told_by self.now) high.now)) }
    {
        let value = self.meaning(alloc, value)?;
        match self.side(alloc, low) {
            Ok(low) => match self.side(alloc, high) {
                Ok(high) => Ok(Condition::Between { value, low, high }),
                Err(why) => {
                    drop(value);
                    drop(low);
                    Err(why)
                }
            },
            Err(why) => {
                drop(value);
                Err(why)
            }
        }
    }

    /// A condition with what its sides stand for.
    pub fn condition(&self, alloc: Global, cond: &Cond) -> Result<Condition, NoMemory>
        ensures { IfOk result (λ bound. bound ≡ condition (told_by self.now) cond.now) }
    {
        match cond {
            Cond::Compare { left, sign, right } => {
                let left = self.side(alloc, left)?;
                match self.side(alloc, right) {
                    Ok(right) => Ok(Condition::Compare {
                        left,
                        sign: *sign,
                        right,
                    }),
                    Err(why) => {
                        drop(left);
                        Err(why)
                    }
                }
            }
            Cond::Between { value, low, high } => self.between(alloc, value, low, high),
        }
    }
}
