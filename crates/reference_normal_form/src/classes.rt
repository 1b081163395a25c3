// Sets of classes, and the classes of a block's columns.
ghost use Rattle.std.specs.Prelude.{◌≡◌, ◌<◌, map, filter, length, replicate, slice_set, IfOk, true, false};
ghost use Rattle.beas_core.specs.Coverage.{has, with_classes, class_at, place_class, constant_classes, output_classes, start_classes};
ghost use Rattle.beas_core.specs.Valuations.{classes_in};

use beas_core::{ColumnId, List, NoMemory, Normal, Place, class_at};
use std::alloc::Global;

/// Whether a set holds a class.
pub fn has_class(set: &[bool], class: u16) -> bool
    ensures { result ≡ has set.now class }
{
    match set.get(usize::from(class)) {
        Some(held) => *held,
        None => false,
    }
}

/// The class of a place.
pub fn class_of(normal: &Normal, place: Place) -> u16
    ensures { result ≡ place_class normal.now place }
{
    class_at(normal, place.atom, place.column)
}

/// The classes of some columns of an atom.
pub fn classes_at(
    alloc: Global,
    normal: &Normal,
    atom: u16,
    columns: &[ColumnId],
) -> Result<Vec<u16>, NoMemory>
    ensures { IfOk result (λ classes. classes.items ≡ map (class_at normal.now atom) columns.now) }
{
    let classes = columns
        .iter()
        .map(|column| class_at(normal, atom, *column))
        .collect(alloc)?;
    Ok(classes)
}

fn add_class(set: &mut [bool], class: u16)
    ensures { set.new ≡ slice_set set.old class true }
{
    let at = usize::from(class);
    if at < set.len() {
        set[at] = true;
    }
}

/// The set with some more classes.
#[tactic(auto, using(crate::proofs::SetLengths::length_with))]
pub fn with_classes(alloc: Global, set: &[bool], classes: &[u16]) -> Result<List<bool>, NoMemory>
    ensures set { IfOk result (λ more. more ≡ with_classes set.now classes.now) }
    ensures len { IfOk result (λ more. length more ≡ length set.now) }
{
    let mut more = set.to_vec(alloc)?;
    for class in classes {
        add_class(&mut more, *class);
    }
    Ok(List::from_vec(more))
}

/// The classes of the output's places.
pub fn output_classes(alloc: Global, normal: &Normal) -> Result<Vec<u16>, NoMemory>
    ensures { IfOk result (λ classes. classes.items ≡ output_classes normal.now) }
{
    let output = normal.output.as_slice();
    let classes = output
        .iter()
        .map(|place| class_of(normal, *place))
        .collect(alloc)?;
    Ok(classes)
}

fn classes_of_constants(alloc: Global, normal: &Normal) -> Result<Vec<u16>, NoMemory>
    ensures { IfOk result (λ classes. classes.items ≡ map (λ c. c.0) normal.now.constants) }
{
    let constants = normal.constants.as_slice();
    let classes = constants.iter().map(|constant| constant.0).collect(alloc)?;
    Ok(classes)
}

/// The classes that are equated with a constant.
pub fn constant_classes(alloc: Global, normal: &Normal) -> Result<List<bool>, NoMemory>
    ensures set { IfOk result (λ set. set ≡ constant_classes normal.now) }
    ensures len { IfOk result (λ set. length set ≡ normal.now.count) }
{
    let none = vec![in alloc; false; usize::from(normal.count)]?;
    let classes = classes_of_constants(alloc, normal)?;
    with_classes(alloc, &none, &classes)
}

/// The classes that a block starts with: those that are equated with a constant, and where it is guided those of its
/// output too.
pub fn start_classes(
    alloc: Global,
    normal: &Normal,
    is_guided: bool,
) -> Result<List<bool>, NoMemory>
    ensures set { IfOk result (λ set. set ≡ start_classes normal.now is_guided) }
    ensures len { IfOk result (λ set. length set ≡ normal.now.count) }
{
    let constants = constant_classes(alloc, normal)?;
    if !is_guided {
        return Ok(constants);
    }
    let classes = output_classes(alloc, normal)?;
    with_classes(alloc, constants.as_slice(), &classes)
}

/// The classes of a set, ascending.
pub fn classes_in(alloc: Global, set: &[bool]) -> Result<Vec<u16>, NoMemory>
    requires { length set.now < 65536 }
    ensures { IfOk result (λ classes. classes.items ≡ classes_in set.now) }
{
    let count = set.len() as u16;
    let classes = (0..count)
        .filter(|class| has_class(set, *class))
        .collect(alloc)?;
    Ok(classes)
}
