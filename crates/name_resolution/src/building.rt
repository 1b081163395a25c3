// Makes blocks of blocks with their names looked up.
ghost use Rattle.std.specs.Prelude.{if◌then◌else◌, ◌≡◌, ◌++◌, ◌<◌, ◌∷◌, [], All, IfOk, OnOk, length, map};
ghost use Rattle.std.specs.Option.{option_to_list};
ghost use Rattle.std.specs.List.{filter_map, flat_map, enumerate_from, range_with_len};
ghost use Rattle.name_resolution.specs.LookedUp.{place_of, place_at, mirrored_sign, with_column, with_value, part_of, parts, column_of, all_places, bound_block, IsSmall, ConditionIsSmall, BlockIsSmall, Adds};

use crate::looking_up::column_of;
use crate::meaning::{BoundColumn, Condition, LookedUp, Meaning, Part};
use beas_core::{
    Atom, Block, ColumnId, Comparison, Duplicate, List, NoMemory, Operand, Place, Sign, Value,
};
use std::alloc::Global;

/// The place of a column.
pub fn place_of(column: BoundColumn) -> Place
    requires atom { column.atom < 65536 }
    requires column { column.column < 65536 }
    ensures { result ≡ place_of column }
{
    Place {
        atom: column.atom as u16,
        column: ColumnId(column.column as u16),
    }
}

/// The sign of a comparison with its sides exchanged.
fn mirrored_sign(sign: Sign) -> Sign
    ensures { result ≡ mirrored_sign sign }
{
    match sign {
        Sign::Equal => Sign::Equal,
        Sign::Differs => Sign::Differs,
        Sign::Less => Sign::More,
        Sign::AtMost => Sign::AtLeast,
        Sign::More => Sign::Less,
        Sign::AtLeast => Sign::AtMost,
    }
}

/// What a comparison of two columns adds.
fn with_column(left: BoundColumn, sign: Sign, right: BoundColumn) -> Part
    requires left_atom { left.atom < 65536 }
    requires left_column { left.column < 65536 }
    requires right_atom { right.atom < 65536 }
    requires right_column { right.column < 65536 }
    ensures { result ≡ with_column left sign right }
{
    let left = place_of(left);
    let right = place_of(right);
    match sign {
        Sign::Equal => Part::Equality(left, right),
        _ => Part::Compared(Comparison {
            left,
            sign,
            right: Operand::At(right),
        }),
    }
}

/// What a comparison of a column with a value adds.
fn with_value(left: BoundColumn, sign: Sign, value: Value) -> Part
    requires atom { left.atom < 65536 }
    requires column { left.column < 65536 }
    ensures { result ≡ with_value left sign value }
{
    let left = place_of(left);
    match sign {
        Sign::Equal => Part::Constant(left, value),
        _ => Part::Compared(Comparison {
            left,
            sign,
            right: Operand::Fixed(value),
        }),
    }
}

/// What a comparison adds.
fn part_of(
    alloc: Global,
    left: &Meaning,
    sign: Sign,
    right: &Meaning,
) -> Result<Option<Part>, NoMemory>
    requires left { IsSmall left.now }
    requires right { IsSmall right.now }
    ensures { IfOk result (λ part. part ≡ part_of left.now sign right.now) }
{
    match (left, right) {
        (Meaning::At(left), Meaning::At(right)) => Ok(Some(with_column(*left, sign, *right))),
        (Meaning::At(left), Meaning::Fixed(value)) => {
            Ok(Some(with_value(*left, sign, value.copy(alloc)?)))
        }
        (Meaning::Fixed(value), Meaning::At(right)) => {
            Ok(Some(with_value(*right, mirrored_sign(sign), value.copy(alloc)?)))
        }
        _ => Ok(None),
    }
}

/// Adds a part to a block.
fn add_part(block: &mut Block, part: Part) -> Result<(), NoMemory>
    ensures { OnOk result (Adds block.old block.new (part ∷ [])) }
{
    match part {
        Part::Equality(left, right) => block.equalities.push((left, right)),
        Part::Constant(place, value) => block.constants.push((place, value)),
        Part::Compared(comparison) => block.comparisons.push(comparison),
    }
}

/// Adds what a comparison adds.
fn add_comparison(
    alloc: Global,
    block: &mut Block,
    left: &Meaning,
    sign: Sign,
    right: &Meaning,
) -> Result<(), NoMemory>
    requires left { IsSmall left.now }
    requires right { IsSmall right.now }
    ensures { OnOk result (Adds block.old block.new (option_to_list (part_of left.now sign right.now))) }
{
    match part_of(alloc, left, sign, right)? {
        Some(part) => add_part(block, part),
        None => Ok(()),
    }
}

/// Adds what a condition adds.
pub fn add_condition(
    alloc: Global,
    block: &mut Block,
    condition: &Condition,
) -> Result<(), NoMemory>
    requires { ConditionIsSmall condition.now }
    ensures { OnOk result (Adds block.old block.new (parts condition.now)) }
{
    match condition {
        Condition::Compare { left, sign, right } => {
            add_comparison(alloc, block, left, *sign, right)
        }
        Condition::Between { value, low, high } => {
            add_comparison(alloc, block, value, Sign::AtLeast, low)?;
            add_comparison(alloc, block, value, Sign::AtMost, high)
        }
    }
}

fn add_conditions(
    alloc: Global,
    block: &mut Block,
    conditions: &[Condition],
) -> Result<(), NoMemory>
    requires { All ConditionIsSmall conditions.now }
    ensures { OnOk result (Adds block.old block.new (flat_map parts conditions.now)) }
{
    for condition in conditions {
        add_condition(alloc, block, condition)?;
    }
    Ok(())
}

/// Adds the places of an atom's columns.
fn add_places(places: &mut List<Place>, atom: u16, width: u16) -> Result<(), NoMemory>
    ensures { OnOk result (places.new ≡ places.old ++ map (place_at atom) (range_with_len 0 width)) }
{
    for column in 0..width {
        places.push(Place {
            atom,
            column: ColumnId(column),
        })?;
    }
    Ok(())
}

/// The places of all columns of all atoms, in order.
pub fn all_places(alloc: Global, atoms: &[Atom]) -> Result<List<Place>, NoMemory>
    requires { length atoms.now < 65536 }
    ensures { IfOk result (λ places. places ≡ all_places atoms.now) }
{
    let mut places = List::new(alloc);
    for (number, atom) in atoms.iter().enumerate() {
        add_places(&mut places, number as u16, atom.width)?;
    }
    Ok(places)
}

fn item_places(alloc: Global, items: &[Meaning]) -> Result<List<Place>, NoMemory>
    requires { All IsSmall items.now }
    ensures { IfOk result (λ places. places ≡ map place_of (filter_map column_of items.now)) }
{
    let mut places = List::from_vec(Vec::with_capacity(alloc, items.len())?);
    for item in items {
        if let Meaning::At(column) = item {
            places.push(place_of(*column))?;
        }
    }
    Ok(places)
}

/// All columns of the atoms where there is a star, and else those that the items stand for.
fn outputs_of(
    alloc: Global,
    star: bool,
    atoms: &[Atom],
    items: &[Meaning],
) -> Result<List<Place>, NoMemory>
    requires atoms { length atoms.now < 65536 }
    requires items { All IsSmall items.now }
    ensures { IfOk result (λ places. places
        ≡ (if star then all_places atoms.now else map place_of (filter_map column_of items.now))) }
{
    if star {
        return all_places(alloc, atoms);
    }
    item_places(alloc, items)
}

/// The block whose places are the columns that names were found to stand for.
pub fn bound_block(alloc: Global, block: &LookedUp) -> Result<Block, NoMemory>
    requires { BlockIsSmall block.now }
    ensures { IfOk result (λ bound. bound ≡ bound_block block.now) }
{
    let mut bound = Block {
        atoms: block.atoms.copy(alloc)?,
        equalities: List::new(alloc),
        constants: List::new(alloc),
        comparisons: List::new(alloc),
        output: outputs_of(
            alloc,
            block.star,
            block.atoms.as_slice(),
            block.items.as_slice(),
        )?,
    };
    add_conditions(alloc, &mut bound, block.conditions.as_slice())?;
    Ok(bound)
}
