// The columns of an atom that stand in a condition or in the output.
ghost use Rattle.std.specs.Prelude.{◌≡◌, if◌then◌else◌, ◌<◌, ◌∷◌, ◌++◌, [], map, filter, length, IfOk, OnOk};
ghost use Rattle.std.specs.List.{flat_map, enumerate_from, range_with_len, list_any};
ghost use Rattle.beas_core.specs.Classes.{same_place, operand_places, used_places, needed_columns};

use crate::places::same_place;
use beas_core::{Block, ColumnId, Comparison, List, NoMemory, Operand, Place, Value};
use std::alloc::Global;

fn push_both(places: &mut List<Place>, equality: &(Place, Place)) -> Result<(), NoMemory>
    ensures { OnOk result (places.new ≡ places.old ++ equality.now.0 ∷ equality.now.1 ∷ []) }
{
    places.push(equality.0)?;
    places.push(equality.1)
}

#[tactic(auto, using(std::proofs::lemmas::List::flat_map_more))]
fn push_equalities(places: &mut List<Place>, equalities: &[(Place, Place)]) -> Result<(), NoMemory>
    ensures { OnOk result (places.new ≡ places.old ++ flat_map (λ e. e.0 ∷ e.1 ∷ []) equalities.now) }
{
    for equality in equalities {
        push_both(places, equality)?;
    }
    Ok(())
}

fn push_constants(places: &mut List<Place>, constants: &[(Place, Value)]) -> Result<(), NoMemory>
    ensures { OnOk result (places.new ≡ places.old ++ map (λ c. c.0) constants.now) }
{
    for constant in constants {
        places.push(constant.0)?;
    }
    Ok(())
}

fn push_sides(places: &mut List<Place>, comparison: &Comparison) -> Result<(), NoMemory>
    ensures { OnOk result (places.new ≡ places.old ++ comparison.now.left ∷ operand_places comparison.now.right) }
{
    places.push(comparison.left)?;
    match &comparison.right {
        Operand::At(place) => places.push(*place),
        Operand::Fixed(_) => Ok(()),
    }
}

#[tactic(auto, using(std::proofs::lemmas::List::flat_map_more))]
fn push_comparisons(places: &mut List<Place>, comparisons: &[Comparison]) -> Result<(), NoMemory>
    ensures { OnOk result (places.new ≡ places.old ++ flat_map (λ c. c.left ∷ operand_places c.right) comparisons.now) }
{
    for comparison in comparisons {
        push_sides(places, comparison)?;
    }
    Ok(())
}

fn push_output(places: &mut List<Place>, output: &[Place]) -> Result<(), NoMemory>
    ensures { OnOk result (places.new ≡ places.old ++ output.now) }
{
    for place in output {
        places.push(*place)?;
    }
    Ok(())
}

/// Each place in a condition or in the output.
#[tactic(auto, using(std::proofs::Common::append_assoc))]
pub fn used_places(alloc: Global, block: &Block) -> Result<List<Place>, NoMemory>
    ensures { IfOk result (λ places. places ≡ used_places block.now) }
{
    let mut places = List::new(alloc);
    push_equalities(&mut places, block.equalities.as_slice())?;
    push_constants(&mut places, block.constants.as_slice())?;
    push_comparisons(&mut places, block.comparisons.as_slice())?;
    push_output(&mut places, block.output.as_slice())?;
    Ok(places)
}

fn stands_in(used: &[Place], atom: u16, column: u16) -> bool
    ensures { result ≡ list_any (same_place (record { atom = atom; column = record { 0 = column } })) used.now }
{
    let place = Place {
        atom,
        column: ColumnId(column),
    };
    used.iter().any(|other| same_place(place, *other))
}

// Adds a column where it is needed.
fn push_needed(
    columns: &mut List<ColumnId>,
    block: &Block,
    used: &[Place],
    atom: u16,
    column: u16,
) -> Result<(), NoMemory>
    requires { used.now ≡ used_places block.now }
    ensures { OnOk result (columns.new ≡ columns.old
        ++ (if list_any (same_place (record { atom = atom; column = record { 0 = column } })) (used_places block.now)
        then (record { 0 = column }) ∷ [] else [])) }
{
    if stands_in(used, atom, column) {
        columns.push(ColumnId(column))?;
    }
    Ok(())
}

// The needed columns of an atom, ascending, where `used` are all places that stand anywhere.
fn needed_columns(
    alloc: Global,
    block: &Block,
    used: &[Place],
    atom: u16,
    width: u16,
) -> Result<List<ColumnId>, NoMemory>
    requires { used.now ≡ used_places block.now }
    ensures { IfOk result (λ columns. columns ≡ needed_columns block.now atom width) }
{
    let mut columns = List::new(alloc);
    for column in 0..width {
        push_needed(&mut columns, block, used, atom, column)?;
    }
    Ok(columns)
}

/// The needed columns of each atom.
pub fn needed_columns_by_atom(
    alloc: Global,
    block: &Block,
) -> Result<List<List<ColumnId>>, NoMemory>
    requires { length block.now.atoms < 65536 }
    ensures { IfOk result (λ all. all ≡ map (λ a. needed_columns block.now a.0 a.1.width)
        (enumerate_from 0 block.now.atoms)) }
{
    let used = used_places(alloc, block)?;
    let mut all = List::new(alloc);
    for (number, atom) in block.atoms.as_slice().iter().enumerate() {
        let number = number as u16;
        all.push(needed_columns(alloc, block, used.as_slice(), number, atom.width)?)?;
    }
    Ok(all)
}
