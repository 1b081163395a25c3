// The covered set, grown turn by turn, and the reason why a block isn't covered.
ghost use Rattle.std.specs.Prelude.{◌≡◌, ◌<◌, ◌++◌, ◌&&◌, ◌==◌, not, map, find, length, IfOk, OnOk, option_map};
ghost use Rattle.std.specs.List.{list_all, list_any};
ghost use Rattle.std.specs.Option.{option_copied};
ghost use Rattle.beas_core.specs.Coverage.{holds_classes, key_classes, fetched_classes, uses, grow, grow_times, covered_set, is_open, is_served, serves, holds_needed, needed_of, needed_places, atoms_of, is_covered, reason, class_at};
ghost use Rattle.beas_core.specs.Groups.{has_column, member_columns};

use crate::access_uses::{AccessUse, uses};
use beas_core::{Access, ColumnId, List, NoMemory, Normal, NotCovered, Place, class_at};
use reference_normal_form::{class_of, has_class};
use std::alloc::Global;

/// Whether a set holds the classes of some columns of an atom.
pub fn holds_columns(normal: &Normal, set: &[bool], atom: u16, columns: &[ColumnId]) -> bool
    ensures { result ≡ holds_classes set.now (map (class_at normal.now atom) columns.now) }
{
    columns
        .iter()
        .map(|column| class_at(normal, atom, *column))
        .all(|class| has_class(set, class))
}

// Whether one of some columns of an atom has this class.
fn some_has_class(normal: &Normal, atom: u16, columns: &[ColumnId], class: u16) -> bool
    ensures { result ≡ list_any (λ d. d == class) (map (class_at normal.now atom) columns.now) }
{
    columns
        .iter()
        .map(|column| class_at(normal, atom, *column))
        .any(|other| other == class)
}

// Whether a use adds this class, where the set holds its key.
fn use_gives(normal: &Normal, set: &[bool], given: &AccessUse, class: u16) -> bool
    ensures { result ≡ holds_classes set.now (key_classes normal.now given.now) && list_any (λ d. d == class)
        (fetched_classes normal.now given.now) }
{
    let key = given.access.key.as_slice();
    let fetched = given.access.fetched.as_slice();
    holds_columns(normal, set, given.atom, key)
        && some_has_class(normal, given.atom, fetched, class)
}

fn some_use_gives(normal: &Normal, set: &[bool], found: &[AccessUse], class: u16) -> bool
    ensures { result ≡ list_any (λ u. holds_classes set.now (key_classes normal.now u) && list_any (λ d. d == class)
        (fetched_classes normal.now u)) found.now }
{
    found
        .iter()
        .any(|given| use_gives(normal, set, given, class))
}

// The set with all that each use adds to it.
#[tactic(auto, using(reference_normal_form::proofs::ListSteps::range_map_step))]
fn grow(
    alloc: Global,
    normal: &Normal,
    accesses: &[Access],
    found: &[AccessUse],
    set: &[bool],
) -> Result<List<bool>, NoMemory>
    requires { found.now ≡ uses normal.now accesses.now }
    ensures { IfOk result (λ more. more ≡ grow normal.now accesses.now set.now) }
{
    let mut more = List::new(alloc);
    for class in 0..normal.count {
        let held = has_class(set, class) || some_use_gives(normal, set, found, class);
        more.push(held)?;
    }
    Ok(more)
}

/// The least set of classes that holds the start and is closed under the constraints.
#[tactic(auto, unfolding(beas_core::specs::Coverage::covered_set))]
pub fn covered_set(
    alloc: Global,
    normal: &Normal,
    accesses: &[Access],
    start: &[bool],
) -> Result<List<bool>, NoMemory>
    requires { length normal.now.atoms < 65536 }
    ensures { IfOk result (λ set. set ≡ covered_set normal.now accesses.now start.now) }
{
    let found = uses(alloc, normal, accesses)?;
    let mut set = List::from_vec(start.to_vec(alloc)?);
    for _turn in 0..normal.count {
        set = grow(alloc, normal, accesses, found.as_slice(), set.as_slice())?;
    }
    Ok(set)
}

// Whether one of two lists of columns has a column.
fn has_column(key: &[ColumnId], fetched: &[ColumnId], column: ColumnId) -> bool
    ensures { result ≡ has_column (key.now ++ fetched.now) column }
{
    key.iter()
        .chain(fetched.iter())
        .any(|other| other.0 == column.0)
}

/// Whether these key and fetched columns hold all needed columns of an atom.
pub fn columns_hold_needed(
    normal: &Normal,
    atom: u16,
    key: &[ColumnId],
    fetched: &[ColumnId],
) -> bool
    ensures { result ≡ list_all (has_column (key.now ++ fetched.now)) (needed_of normal.now atom) }
{
    match normal.needed.as_slice().get(usize::from(atom)) {
        Some(needed) => needed
            .as_slice()
            .iter()
            .all(|column| has_column(key, fetched, *column)),
        None => true,
    }
}

/// Whether a use of a constraint serves its atom.
pub fn serves(normal: &Normal, set: &[bool], given: &AccessUse) -> bool
    ensures { result ≡ serves normal.now set.now given.now }
{
    let key = given.access.key.as_slice();
    let fetched = given.access.fetched.as_slice();
    holds_columns(normal, set, given.atom, key)
        && columns_hold_needed(normal, given.atom, key, fetched)
}

/// Whether a use is on this atom and serves it.
pub fn serves_atom(normal: &Normal, set: &[bool], given: &AccessUse, atom: u16) -> bool
    ensures { result ≡ (given.now.atom == atom) && serves normal.now set.now given.now }
{
    given.atom == atom && serves(normal, set, given)
}

fn is_served(
    normal: &Normal,
    accesses: &[Access],
    found: &[AccessUse],
    set: &[bool],
    atom: u16,
) -> bool
    requires { found.now ≡ uses normal.now accesses.now }
    ensures { result ≡ is_served normal.now accesses.now set.now atom }
{
    found
        .iter()
        .any(|given| serves_atom(normal, set, given, atom))
}

fn push_places(places: &mut List<Place>, atom: u16, columns: &[ColumnId]) -> Result<(), NoMemory>
    ensures { OnOk result (places.new ≡ places.old ++ map (λ c. record { atom = atom; column = c }) columns.now) }
{
    for column in columns {
        places.push(Place {
            atom,
            column: *column,
        })?;
    }
    Ok(())
}

fn needed_places(alloc: Global, normal: &Normal) -> Result<List<Place>, NoMemory>
    requires { length normal.now.needed < 65536 }
    ensures { IfOk result (λ places. places ≡ needed_places normal.now) }
{
    let mut places = List::new(alloc);
    for (atom, columns) in normal.needed.as_slice().iter().enumerate() {
        push_places(&mut places, atom as u16, columns.as_slice())?;
    }
    Ok(places)
}

fn open_place<'a>(normal: &Normal, set: &[bool], places: &'a [Place]) -> Option<&'a Place>
    ensures { option_copied result ≡ find (is_open normal.now set.now) places.now }
{
    places
        .iter()
        .find(|place| !has_class(set, class_of(normal, **place)))
}

fn first_open_of(normal: &Normal, set: &[bool], places: &[Place]) -> Option<Place>
    ensures { result ≡ find (is_open normal.now set.now) places.now }
{
    open_place(normal, set, places).copied()
}

// The first needed column whose class isn't in the set.
fn first_open(alloc: Global, normal: &Normal, set: &[bool]) -> Result<Option<Place>, NoMemory>
    requires { length normal.now.needed < 65536 }
    ensures { IfOk result (λ first. first ≡ find (is_open normal.now set.now) (needed_places normal.now)) }
{
    let places = needed_places(alloc, normal)?;
    Ok(first_open_of(normal, set, places.as_slice()))
}

/// The atoms of a block, by number.
#[tactic(auto, using(reference_normal_form::proofs::ListSteps::range_step))]
pub fn atoms_of(alloc: Global, normal: &Normal) -> Result<Vec<u16>, NoMemory>
    requires { length normal.now.atoms < 65536 }
    ensures { IfOk result (λ numbers. numbers.items ≡ atoms_of normal.now) }
{
    let mut numbers = Vec::new(alloc);
    for atom in 0..normal.atoms.len() as u16 {
        numbers.push(atom)?;
    }
    Ok(numbers)
}

fn first_unserved_among(
    normal: &Normal,
    accesses: &[Access],
    found: &[AccessUse],
    set: &[bool],
) -> Option<u16>
    requires atoms { length normal.now.atoms < 65536 }
    requires found { found.now ≡ uses normal.now accesses.now }
    ensures { result ≡ find (λ atom. not (is_served normal.now accesses.now set.now atom)) (atoms_of normal.now) }
{
    (0..normal.atoms.len() as u16).find(|atom| !is_served(normal, accesses, found, set, *atom))
}

// The first atom that no constraint serves.
fn first_unserved(
    alloc: Global,
    normal: &Normal,
    accesses: &[Access],
    set: &[bool],
) -> Result<Option<u16>, NoMemory>
    requires { length normal.now.atoms < 65536 }
    ensures { IfOk result (λ unserved. unserved
        ≡ find (λ atom. not (is_served normal.now accesses.now set.now atom)) (atoms_of normal.now)) }
{
    let found = uses(alloc, normal, accesses)?;
    Ok(first_unserved_among(normal, accesses, found.as_slice(), set))
}

/// The first needed column whose class isn't in the set, else the first atom that no constraint serves.
#[tactic(auto, unfolding(beas_core::specs::Coverage::reason))]
pub fn reason(
    alloc: Global,
    normal: &Normal,
    accesses: &[Access],
    set: &[bool],
) -> Result<Option<NotCovered>, NoMemory>
    requires atoms { length normal.now.atoms < 65536 }
    requires needed { length normal.now.needed < 65536 }
    ensures { IfOk result (λ why. why ≡ reason normal.now accesses.now set.now) }
{
    if let Some(place) = first_open(alloc, normal, set)? {
        return Ok(Some(NotCovered::ColumnOpen {
            atom: place.atom,
            column: place.column,
        }));
    }
    let unserved = first_unserved(alloc, normal, accesses, set)?;
    Ok(unserved.map(|atom| NotCovered::AtomUnindexed { atom }))
}

fn all_served_among(normal: &Normal, accesses: &[Access], found: &[AccessUse], set: &[bool]) -> bool
    requires atoms { length normal.now.atoms < 65536 }
    requires found { found.now ≡ uses normal.now accesses.now }
    ensures { result ≡ list_all (is_served normal.now accesses.now set.now) (atoms_of normal.now) }
{
    (0..normal.atoms.len() as u16).all(|atom| is_served(normal, accesses, found, set, atom))
}

// Whether each atom has a constraint that serves it.
fn all_served(
    alloc: Global,
    normal: &Normal,
    accesses: &[Access],
    set: &[bool],
) -> Result<bool, NoMemory>
    requires { length normal.now.atoms < 65536 }
    ensures { IfOk result (λ served. served
        ≡ list_all (is_served normal.now accesses.now set.now) (atoms_of normal.now)) }
{
    let found = uses(alloc, normal, accesses)?;
    Ok(all_served_among(normal, accesses, found.as_slice(), set))
}

/// Whether the set holds each needed column's class, and each atom has a constraint that serves it.
#[tactic(auto, unfolding(beas_core::specs::Coverage::is_covered))]
pub fn is_covered(
    alloc: Global,
    normal: &Normal,
    accesses: &[Access],
    set: &[bool],
) -> Result<bool, NoMemory>
    requires atoms { length normal.now.atoms < 65536 }
    requires needed { length normal.now.needed < 65536 }
    ensures { IfOk result (λ covered. covered ≡ is_covered normal.now accesses.now set.now) }
{
    let open = some_open(alloc, normal, set)?;
    let served = all_served(alloc, normal, accesses, set)?;
    Ok(!open && served)
}

/// Whether the class of some needed column isn't in the set.
pub fn some_open(alloc: Global, normal: &Normal, set: &[bool]) -> Result<bool, NoMemory>
    requires { length normal.now.needed < 65536 }
    ensures { IfOk result (λ some. some ≡ list_any (is_open normal.now set.now) (needed_places normal.now)) }
{
    let places = needed_places(alloc, normal)?;
    let open = places
        .as_slice()
        .iter()
        .any(|place| !has_class(set, class_of(normal, *place)));
    Ok(open)
}
