// The candidates: the classes that may be given as constants.
ghost use Rattle.std.specs.Prelude.{◌≡◌, ◌==◌, ◌≤◌, ◌∷◌, ◌++◌, [], false, IfOk, OnOk, List as Items, filter, find, flat_map, length, map, replicate};
ghost use Rattle.std.specs.List.{range_with_len};
ghost use Rattle.beas_core.specs.declared.schema.Access.{Access};
ghost use Rattle.beas_core.specs.Classes.{normal_of};
ghost use Rattle.beas_core.specs.Coverage.{class_at as class_of_column, key_classes, needed_places, own_cover, place_class, uses, with_classes};
ghost use Rattle.beas_core.specs.Shapes.{BlockIsWellFormed};
ghost use Rattle.attribute_closure.specs.Uses.{as_use};
ghost use Rattle.specialise.specs.Specialised.{candidates, first_place as first_place_of};
ghost use Rattle.specialise.specs.Trials.{candidate_of, is_open};

use attribute_closure::{UseAt, has_class};
use beas_core::{Block, ColumnId, List, NoMemory, Normal, Place, class_at};
use std::alloc::Global;

/// A class that may be given as a constant, with its first place.
#[derive(Clone, Copy)]
pub struct Candidate {
    pub class: u16,
    pub place: Place,
}

// Notes the classes of some columns of an atom.
#[tactic(auto, using(attribute_closure::proofs::Sets::columns_more, crate::proofs::Noted::noted_past))]
fn note_columns(block: &Normal, atom: u16, columns: &[ColumnId], asked: &mut [bool])
    ensures { asked.new ≡ with_classes asked.old (map (class_of_column block.now atom) columns.now) }
{
    for column in columns {
        let class = usize::from(class_at(block, atom, *column));
        if class < asked.len() {
            asked[class] = true;
        }
    }
}

fn note_needed(block: &Normal, asked: &mut [bool])
    requires { length block.now.needed ≤ 65536 }
    ensures { asked.new ≡ with_classes asked.old (map (place_class block.now) (needed_places block.now)) }
{
    for (number, columns) in block.needed.as_slice().iter().enumerate() {
        note_columns(block, number as u16, columns.as_slice(), asked);
    }
}

fn note_keys(block: &Normal, found: &[UseAt<'_>], asked: &mut [bool])
    ensures { asked.new ≡ with_classes asked.old (flat_map (key_classes block.now) (map as_use found.now)) }
{
    for use_at in found {
        note_columns(block, use_at.atom, use_at.access.key.as_slice(), asked);
    }
}

// The classes that the block needs, or that a key has: one truth value for each class.
fn asked_of(alloc: Global, block: &Normal, found: &[UseAt<'_>]) -> Result<Vec<bool>, NoMemory>
    requires { length block.now.needed ≤ 65536 }
    ensures { IfOk result (λ asked. asked.items ≡ with_classes (replicate block.now.count false)
        (map (place_class block.now) (needed_places block.now)
        ++ flat_map (key_classes block.now) (map as_use found.now))) }
{
    let mut asked = vec![in alloc; false; usize::from(block.count)]?;
    note_needed(block, &mut asked);
    note_keys(block, found, &mut asked);
    Ok(asked)
}

// The first column of an atom that has a class.
fn column_of(block: &Normal, atom: u16, width: u16, class: u16) -> Option<u16>
    ensures { result ≡ find (λ c. class_of_column block.now atom (record { 0 = c }) == class)
        (range_with_len 0 width) }
{
    for column in 0..width {
        if class_at(block, atom, ColumnId(column)) == class {
            return Some(column);
        }
    }
    None
}

// The first place of a class, by atom and then column.
fn first_place(block: &Block, normal: &Normal, class: u16) -> Place
    requires shape { BlockIsWellFormed block.now }
    requires normal { normal.now ≡ normal_of block.now }
    ensures { result ≡ first_place_of block.now class }
{
    for (number, declared) in block.atoms.as_slice().iter().enumerate() {
        let atom = number as u16;
        if let Some(column) = column_of(normal, atom, declared.width, class) {
            return Place {
                atom,
                column: ColumnId(column),
            };
        }
    }
    Place {
        atom: 0,
        column: ColumnId(0),
    }
}

fn is_open(cover: &[bool], asked: &[bool], class: u16) -> bool
    ensures { result ≡ is_open cover.now asked.now class }
{
    !has_class(cover, class) && has_class(asked, class)
}

// Adds a class with its first place, where it is asked for and the covered set lacks it.
fn push_open(
    block: &Block,
    normal: &Normal,
    cover: &[bool],
    asked: &[bool],
    class: u16,
    found: &mut List<Candidate>,
) -> Result<(), NoMemory>
    requires shape { BlockIsWellFormed block.now }
    requires normal { normal.now ≡ normal_of block.now }
    ensures { OnOk result (found.new ≡ found.old
        ++ map (candidate_of block.now) (filter (is_open cover.now asked.now) (class ∷ []))) }
{
    if is_open(cover, asked, class) {
        let place = first_place(block, normal, class);
        found.push(Candidate { class, place })?;
    }
    Ok(())
}

// The classes that are asked for and that the covered set lacks, each with its first place.
fn open_candidates(
    alloc: Global,
    block: &Block,
    normal: &Normal,
    cover: &[bool],
    asked: &[bool],
) -> Result<List<Candidate>, NoMemory>
    requires shape { BlockIsWellFormed block.now }
    requires normal { normal.now ≡ normal_of block.now }
    ensures { IfOk result (λ found. found ≡ map (candidate_of block.now)
        (filter (is_open cover.now asked.now) (range_with_len 0 normal.now.count))) }
{
    let mut found = List::new(alloc);
    for class in 0..normal.count {
        push_open(block, normal, cover, asked, class, &mut found)?;
    }
    Ok(found)
}

/// The candidates of a block in ascending order, where `cover` is its covered set and `found` are the uses of the constraints.
#[tactic(auto, using(coverage_check::proofs::NormalFacts::few_needed))]
pub(crate) fn candidates_of(
    alloc: Global,
    block: &Block,
    normal: &Normal,
    cover: &[bool],
    found: &[UseAt<'_>],
) -> Result<List<Candidate>, NoMemory>
    requires shape { BlockIsWellFormed block.now }
    requires normal { normal.now ≡ normal_of block.now }
    ensures { IfOk result (λ listed. (accesses : Items Access) → map as_use found.now ≡ uses normal.now accesses
        → cover.now ≡ own_cover normal.now accesses → listed ≡ map (candidate_of block.now) (candidates accesses block.now)) }
{
    let asked = asked_of(alloc, normal, found)?;
    Ok(open_candidates(alloc, block, normal, cover, &asked)?)
}
