// Places, and those that equalities join.
ghost use Rattle.std.specs.Prelude.{◌≡◌, ◌<◌, ◌++◌, ◌↔◌, not, map, filter, length, IfOk, IsTrue, OnOk};
ghost use Rattle.std.specs.List.{list_any, range_with_len};
ghost use Rattle.beas_core.specs.Classes.{same_place, is_joined, places_of, firsts};
ghost use Rattle.reference_normal_form.specs.Few.{HasFewPlaces};
ghost use Rattle.reference_normal_form.specs.Joined.{has_place, joined_with};

use beas_core::{Atom, Block, ColumnId, List, NoMemory, Place};
use std::alloc::Global;

/// Whether two places are one.
pub fn same_place(left: Place, right: Place) -> bool
    ensures { result ≡ same_place left right }
{
    left.atom == right.atom && left.column.0 == right.column.0
}

/// Whether a place is one of these.
pub fn has_place(places: &[Place], place: Place) -> bool
    ensures { result ≡ has_place places.now place }
{
    places.iter().any(|other| same_place(*other, place))
}

// The places of one atom.
#[tactic(auto, using(crate::proofs::ListSteps::range_map_step))]
fn places_on(alloc: Global, atom: u16, width: u16) -> Result<List<Place>, NoMemory>
    ensures { IfOk result (λ places. places ≡ map (λ c. record { atom = atom; column = record { 0 = c } })
        (range_with_len 0 width)) }
{
    let mut places = List::new(alloc);
    for column in 0..width {
        places.push(Place {
            atom,
            column: ColumnId(column),
        })?;
    }
    Ok(places)
}

/// All places, by atom and then column.
pub fn places_of(alloc: Global, atoms: &[Atom]) -> Result<List<Place>, NoMemory>
    requires { length atoms.now < 65536 }
    ensures { IfOk result (λ places. places ≡ places_of atoms.now) }
{
    let mut places = List::new(alloc);
    for (number, atom) in atoms.iter().enumerate() {
        let more = places_on(alloc, number as u16, atom.width)?;
        append(&mut places, more.as_slice())?;
    }
    Ok(places)
}

/// Whether a block has fewer than 65536 atoms and fewer than 65536 places.
pub fn has_few_places(alloc: Global, block: &Block) -> Result<bool, NoMemory>
    ensures { IfOk result (λ few. IsTrue few ↔ HasFewPlaces block.now) }
{
    let atoms = block.atoms.as_slice();
    Ok(atoms.len() < 65536 && places_of(alloc, atoms)?.len() < 65536)
}

// Adds the places of another list at the end.
fn append(places: &mut List<Place>, more: &[Place]) -> Result<(), NoMemory>
    ensures { OnOk result (places.new ≡ places.old ++ more.now) }
{
    for place in more {
        places.push(*place)?;
    }
    Ok(())
}

/// The places that equalities join with one, in no order. With one more equality, those that it bridges to are added.
pub fn joined_with(
    alloc: Global,
    equalities: &[(Place, Place)],
    place: Place,
) -> Result<List<Place>, NoMemory>
    ensures { IfOk result (λ joined. joined ≡ joined_with equalities.now place) }
{
    match equalities {
        [] => {
            let mut joined = List::new(alloc);
            joined.push(place)?;
            Ok(joined)
        }
        [(left, right), rest @ ..] => {
            let mut joined = joined_with(alloc, rest, place)?;
            let has_left = has_place(joined.as_slice(), *left);
            let has_right = has_place(joined.as_slice(), *right);
            if has_left {
                let more = joined_with(alloc, rest, *right)?;
                append(&mut joined, more.as_slice())?;
            }
            if has_right {
                let more = joined_with(alloc, rest, *left)?;
                append(&mut joined, more.as_slice())?;
            }
            Ok(joined)
        }
    }
}
