// The classes of a block's places, and its normal form.
ghost use Rattle.std.specs.Prelude.{◌≡◌, ◌<◌, ◌≤◌, ◌∷◌, not, map, filter, length, IfOk};
ghost use Rattle.std.specs.List.{enumerate_from, position_or_len, range_with_len};
ghost use Rattle.beas_core.specs.Classes.{is_joined, places_of, firsts, leaders, class_of, normal_of};
ghost use Rattle.reference_normal_form.specs.Joined.{has_place, joined_with};

use crate::needed::needed_columns_by_atom;
use crate::places::{has_place, joined_with, places_of};
use beas_core::{Block, ColumnId, Duplicate, List, NoMemory, Normal, Place, Value};
use std::alloc::Global;

// The places without those that are joined with one.
fn without(
    alloc: Global,
    equalities: &[(Place, Place)],
    place: Place,
    places: &[Place],
) -> Result<List<Place>, NoMemory>
    ensures { IfOk result (λ others. others ≡ filter (λ q. not (is_joined equalities.now place q)) places.now) }
{
    let joined = joined_with(alloc, equalities, place)?;
    let others = missing_from(alloc, joined.as_slice(), places)?;
    Ok(others)
}

// The places that aren't among some others.
fn missing_from(alloc: Global, others: &[Place], places: &[Place]) -> Result<List<Place>, NoMemory>
    ensures { IfOk result (λ missing. missing ≡ filter (λ q. not (has_place others.now q)) places.now) }
{
    let mut missing = List::new(alloc);
    for place in places {
        if !has_place(others, *place) {
            missing.push(*place)?;
        }
    }
    Ok(missing)
}

fn with_first(alloc: Global, first: Place, rest: &[Place]) -> Result<List<Place>, NoMemory>
    ensures { IfOk result (λ all. all ≡ first ∷ rest.now) }
{
    let mut all = List::new(alloc);
    all.push(first)?;
    for place in rest {
        all.push(*place)?;
    }
    Ok(all)
}

// The first of each class, in the order of the places.
fn firsts(
    alloc: Global,
    equalities: &[(Place, Place)],
    places: &[Place],
) -> Result<List<Place>, NoMemory>
    ensures { IfOk result (λ found. found ≡ firsts (is_joined equalities.now) places.now) }
{
    match places {
        [] => Ok(List::new(alloc)),
        [first, rest @ ..] => {
            let later = firsts(alloc, equalities, rest)?;
            let others = without(alloc, equalities, *first, later.as_slice())?;
            with_first(alloc, *first, others.as_slice())
        }
    }
}

// The first place of each class.
#[tactic(auto, using(crate::proofs::Joins::few_leaders))]
fn leaders(alloc: Global, block: &Block) -> Result<List<Place>, NoMemory>
    requires atoms { length block.now.atoms < 65536 }
    requires places { length (places_of block.now.atoms) < 65536 }
    ensures found { IfOk result (λ found. found ≡ leaders block.now) }
    ensures few { IfOk result (λ found. length found < 65536) }
{
    let places = places_of(alloc, block.atoms.as_slice())?;
    let found = firsts(alloc, block.equalities.as_slice(), places.as_slice())?;
    Ok(found)
}

// For each class its places, where `leaders` has the first place of each.
fn groups_of(
    alloc: Global,
    equalities: &[(Place, Place)],
    leaders: &[Place],
) -> Result<List<List<Place>>, NoMemory>
    ensures groups { IfOk result (λ groups. groups ≡ map (joined_with equalities.now) leaders.now) }
    ensures count { IfOk result (λ groups. length groups ≡ length leaders.now) }
{
    let mut groups = List::new(alloc);
    for leader in leaders {
        groups.push(joined_with(alloc, equalities, *leader)?)?;
    }
    Ok(groups)
}

// The first of some groups that has a place, or their number.
fn position(groups: &[List<Place>], place: Place) -> usize
    ensures first { result ≡ position_or_len (λ group. has_place group place) groups.now }
    ensures within { result ≤ length groups.now }
{
    match groups {
        [] => 0,
        [first, rest @ ..] => {
            if has_place(first.as_slice(), place) {
                0
            } else {
                1 + position(rest, place)
            }
        }
    }
}

// The class of a place: how many classes have an earlier first place.
fn class_of(block: &Block, groups: &[List<Place>], place: Place) -> u16
    requires groups { groups.now ≡ map (joined_with block.now.equalities) (leaders block.now) }
    requires few { length groups.now < 65536 }
    ensures { result ≡ class_of block.now place }
{
    position(groups, place) as u16
}

#[tactic(auto, using(crate::proofs::ListSteps::range_map_step))]
fn classes_of_atom(
    alloc: Global,
    block: &Block,
    groups: &[List<Place>],
    atom: u16,
    width: u16,
) -> Result<List<u16>, NoMemory>
    requires groups { groups.now ≡ map (joined_with block.now.equalities) (leaders block.now) }
    requires few { length groups.now < 65536 }
    ensures { IfOk result (λ classes. classes ≡ map (λ c. class_of block.now
        (record { atom = atom; column = record { 0 = c } })) (range_with_len 0 width)) }
{
    let mut classes = List::new(alloc);
    for column in 0..width {
        let place = Place {
            atom,
            column: ColumnId(column),
        };
        classes.push(class_of(block, groups, place))?;
    }
    Ok(classes)
}

fn classes(
    alloc: Global,
    block: &Block,
    groups: &[List<Place>],
) -> Result<List<List<u16>>, NoMemory>
    requires atoms { length block.now.atoms < 65536 }
    requires groups { groups.now ≡ map (joined_with block.now.equalities) (leaders block.now) }
    requires few { length groups.now < 65536 }
    ensures { IfOk result (λ all. all
        ≡ map (λ a. map (λ c. class_of block.now (record { atom = a.0; column = record { 0 = c } }))
        (range_with_len 0 a.1.width)) (enumerate_from 0 block.now.atoms)) }
{
    let mut all = List::new(alloc);
    for (number, atom) in block.atoms.as_slice().iter().enumerate() {
        all.push(classes_of_atom(alloc, block, groups, number as u16, atom.width)?)?;
    }
    Ok(all)
}

fn constants(
    alloc: Global,
    block: &Block,
    groups: &[List<Place>],
) -> Result<List<(u16, Value)>, NoMemory>
    requires groups { groups.now ≡ map (joined_with block.now.equalities) (leaders block.now) }
    requires few { length groups.now < 65536 }
    ensures { IfOk result (λ all. all ≡ map (λ c. (class_of block.now c.0, c.1)) block.now.constants) }
{
    let mut all = List::new(alloc);
    for (place, value) in block.constants.as_slice() {
        all.push((class_of(block, groups, *place), value.copy(alloc)?))?;
    }
    Ok(all)
}

// The normal form with these classes, and with what a block has in it as it stands.
fn with_conditions(
    alloc: Global,
    block: &Block,
    count: u16,
    classes: List<List<u16>>,
    constants: List<(u16, Value)>,
    needed: List<List<ColumnId>>,
) -> Result<Normal, NoMemory>
    ensures { IfOk result (λ normal. normal ≡ record {
      atoms = block.now.atoms;
      classes = classes;
      count = count;
      constants = constants;
      needed = needed;
      comparisons = block.now.comparisons;
      output = block.now.output;
    }) }
{
    let atoms = block.atoms.copy(alloc)?;
    let comparisons = block.comparisons.copy(alloc)?;
    let output = block.output.copy(alloc)?;
    Ok(Normal {
        atoms,
        classes,
        count,
        constants,
        needed,
        comparisons,
        output,
    })
}

// The normal form of a block, where `groups` has the places of each class.
#[tactic(auto, unfolding(beas_core::specs::Classes::normal_of))]
fn normal_over(alloc: Global, block: &Block, groups: &[List<Place>]) -> Result<Normal, NoMemory>
    requires atoms { length block.now.atoms < 65536 }
    requires groups { groups.now ≡ map (joined_with block.now.equalities) (leaders block.now) }
    requires few { length groups.now < 65536 }
    requires count { length groups.now ≡ length (leaders block.now) }
    ensures { IfOk result (λ normal. normal ≡ normal_of block.now) }
{
    let classes = classes(alloc, block, groups)?;
    let constants = constants(alloc, block, groups)?;
    let needed = needed_columns_by_atom(alloc, block)?;
    with_conditions(
        alloc,
        block,
        groups.len() as u16,
        classes,
        constants,
        needed,
    )
}

/// The normal form of a block. Classes are numbered in order of their first place, by atom and then column.
pub fn normal_of(alloc: Global, block: &Block) -> Result<Normal, NoMemory>
    requires atoms { length block.now.atoms < 65536 }
    requires places { length (places_of block.now.atoms) < 65536 }
    ensures { IfOk result (λ normal. normal ≡ normal_of block.now) }
{
    let leaders = leaders(alloc, block)?;
    let groups = groups_of(alloc, block.equalities.as_slice(), leaders.as_slice())?;
    normal_over(alloc, block, groups.as_slice())
}
