// Classes of columns, and sets of classes.
ghost use Rattle.std.specs.Prelude.{◌≡◌, IfOk, OnOk, length, map, replicate, false};
ghost use Rattle.std.specs.List.{list_all};
ghost use Rattle.beas_core.specs.Coverage.{class_at as class_of_column, has, holds_classes, with_classes, constant_classes as classes_of_constants};

use beas_core::{ColumnId, List, NoMemory, Normal, Value, class_at};
use std::alloc::Global;

/// Whether a set holds a class.
pub fn has_class(set: &[bool], class: u16) -> bool
    ensures { result ≡ has set.now class }
{
    match set.get(usize::from(class)) {
        Some(held) => *held,
        None => false,
    }
}

/// Whether a set holds the classes of some columns of an atom.
#[tactic(auto, using(crate::proofs::Sets::holds_more, crate::proofs::Sets::holds_broken))]
pub fn holds_columns(block: &Normal, set: &[bool], atom: u16, columns: &[ColumnId]) -> bool
    ensures { result ≡ holds_classes set.now (map (class_of_column block.now atom) columns.now) }
{
    for column in columns {
        if !has_class(set, class_at(block, atom, *column)) {
            return false;
        }
    }
    true
}

// Adds the classes of constants to a set. A class past its end is left out.
#[tactic(auto, using(crate::proofs::Sets::constants_more, crate::proofs::Sets::constants_past))]
fn add_constants(constants: &[(u16, Value)], set: &mut [bool])
    ensures { set.new ≡ with_classes set.old (map (λ c. c.0) constants.now) }
{
    for constant in constants {
        let class = usize::from(constant.0);
        if class < set.len() {
            set[class] = true;
        }
    }
}

/// The classes that are equated with a constant.
pub fn constant_classes(alloc: Global, block: &Normal) -> Result<List<bool>, NoMemory>
    ensures { IfOk result (λ set. set ≡ classes_of_constants block.now) }
{
    let mut set = vec![in alloc; false; usize::from(block.count)]?;
    add_constants(block.constants.as_slice(), &mut set);
    Ok(List::from_vec(set))
}
