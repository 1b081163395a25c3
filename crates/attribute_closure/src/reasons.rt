// Why a set of classes doesn't cover a block.
ghost use Rattle.std.specs.Prelude.{◌≡◌, ◌≤◌, ◌<◌, ◌==◌, ◌&&◌, ◌++◌, IfOk, find, map, length, not, option_copied, option_map};
ghost use Rattle.std.specs.List.{list_all, list_any};
ghost use Rattle.beas_core.specs.declared.plan.NotCovered.TheVariants.{AtomUnindexed};
ghost use Rattle.beas_core.specs.Coverage.{atoms_of, holds_needed as needed_are_held, is_open, is_served, needed_places, serves as serves_atom, reason as reason_of};
ghost use Rattle.beas_core.specs.Groups.{has_column, member_columns};
ghost use Rattle.attribute_closure.specs.Uses.{as_use};

use crate::classes::{has_class, holds_columns};
use crate::uses::UseAt;
use beas_core::{Access, ColumnId, List, NoMemory, Normal, NotCovered, Place, class_at};
use std::alloc::Global;

#[tactic(auto, using(crate::proofs::Searches::any_more, crate::proofs::Searches::any_here))]
fn stands_in(columns: &[ColumnId], column: ColumnId) -> bool
    ensures { result ≡ has_column columns.now column }
{
    for other in columns {
        if other.0 == column.0 {
            return true;
        }
    }
    false
}

#[tactic(auto, using(crate::proofs::Searches::stands_either, crate::proofs::Searches::all_more, crate::proofs::Searches::all_broken))]
fn all_stand(key: &[ColumnId], fetched: &[ColumnId], needed: &[ColumnId]) -> bool
    ensures { result ≡ list_all (has_column (key.now ++ fetched.now)) needed.now }
{
    for column in needed {
        if !stands_in(key, *column) && !stands_in(fetched, *column) {
            return false;
        }
    }
    true
}

/// Whether key and fetched columns of a use's constraint hold all needed columns of its atom.
pub fn holds_needed(block: &Normal, found: &UseAt<'_>) -> bool
    ensures { result ≡ needed_are_held block.now (as_use found.now) }
{
    let key = found.access.key.as_slice();
    let fetched = found.access.fetched.as_slice();
    match block.needed.as_slice().get(usize::from(found.atom)) {
        Some(needed) => all_stand(key, fetched, needed.as_slice()),
        None => true,
    }
}

/// Whether a use serves its atom for a set of classes: the set holds the key's classes, and the needed columns are all
/// in key or fetched.
pub fn serves(block: &Normal, set: &[bool], found: &UseAt<'_>) -> bool
    ensures { result ≡ serves_atom block.now set.now (as_use found.now) }
{
    holds_columns(block, set, found.atom, found.access.key.as_slice()) && holds_needed(block, found)
}

fn is_open_at(block: &Normal, set: &[bool], place: Place) -> bool
    ensures { result ≡ is_open block.now set.now place }
{
    !has_class(set, class_at(block, place.atom, place.column))
}

fn open_column(block: &Normal, set: &[bool], atom: u16, columns: &[ColumnId]) -> Option<ColumnId>
    ensures { option_map (λ c. record { atom = atom; column = c }) result
        ≡ find (is_open block.now set.now) (map (λ c. record { atom = atom; column = c }) columns.now) }
{
    for column in columns {
        let place = Place {
            atom,
            column: *column,
        };
        if is_open_at(block, set, place) {
            return Some(*column);
        }
    }
    None
}

/// The first needed column, by atom and then column, whose class isn't in a set.
pub fn open_place(block: &Normal, set: &[bool]) -> Option<Place>
    requires { length block.now.needed ≤ 65536 }
    ensures { result ≡ find (is_open block.now set.now) (needed_places block.now) }
{
    for (number, columns) in block.needed.as_slice().iter().enumerate() {
        let atom = number as u16;
        if let Some(column) = open_column(block, set, atom, columns.as_slice()) {
            return Some(Place { atom, column });
        }
    }
    None
}

fn is_served_at(block: &Normal, accesses: &[Access], set: &[bool], atom: u16) -> bool
    requires { atom < length block.now.atoms }
    ensures { result ≡ is_served block.now accesses.now set.now atom }
{
    let table = block.atoms.as_slice()[usize::from(atom)].table;
    for access in accesses {
        if access.table.0 == table.0 && serves(block, set, &UseAt { atom, access }) {
            return true;
        }
    }
    false
}

// The first atom that no constraint serves.
fn unserved_atom(block: &Normal, accesses: &[Access], set: &[bool]) -> Option<u16>
    requires { length block.now.atoms ≤ 65536 }
    ensures { result ≡ find (λ atom. not (is_served block.now accesses.now set.now atom)) (atoms_of block.now) }
{
    for number in 0..block.atoms.len() {
        let atom = number as u16;
        if !is_served_at(block, accesses, set, atom) {
            return Some(atom);
        }
    }
    None
}

/// Why a set of classes doesn't cover a block: the first needed column whose class isn't in the set, by atom and then
/// column; where there is none, the first atom that no constraint serves. Nothing where the set covers the block. It
/// takes no memory.
#[tactic(auto, unfolding(beas_core::specs::Coverage::reason))]
pub fn why_not(block: &Normal, accesses: &[Access], set: &[bool]) -> Option<NotCovered>
    requires atoms { length block.now.atoms ≤ 65536 }
    requires needed { length block.now.needed ≤ 65536 }
    ensures { result ≡ reason_of block.now accesses.now set.now }
{
    if let Some(place) = open_place(block, set) {
        return Some(NotCovered::ColumnOpen {
            atom: place.atom,
            column: place.column,
        });
    }
    match unserved_atom(block, accesses, set) {
        Some(atom) => Some(NotCovered::AtomUnindexed { atom }),
        None => None,
    }
}

/// Why a set of classes doesn't cover a block, as `why_not` says.
pub fn reason(
    _alloc: Global,
    block: &Normal,
    accesses: &List<Access>,
    covered: &List<bool>,
) -> Result<Option<NotCovered>, NoMemory>
    requires atoms { length block.now.atoms ≤ 65536 }
    requires needed { length block.now.needed ≤ 65536 }
    ensures { IfOk result (λ why. why ≡ reason_of block.now accesses.now covered.now) }
{
    Ok(why_not(block, accesses.as_slice(), covered.as_slice()))
}
