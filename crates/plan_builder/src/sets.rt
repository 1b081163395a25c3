// Sets of classes that grow by the columns of a use.
ghost use Rattle.std.specs.Prelude.{◌≡◌, IfOk, map};
ghost use Rattle.beas_core.specs.Coverage.{class_at, place_class, start_classes, with_classes};
ghost use Rattle.beas_core.specs.Derivations.{adds_class, with_use};
ghost use Rattle.attribute_closure.specs.Uses.{as_use};

use attribute_closure::{UseAt, constant_classes, holds_columns};
use beas_core::{ColumnId, NoMemory, Normal, Place, class_at};
use std::alloc::Global;

/// Whether a use adds a class to a set.
pub fn adds(block: &Normal, set: &[bool], found: &UseAt<'_>) -> bool
    ensures { result ≡ adds_class block.now set.now (as_use found.now) }
{
    !holds_columns(block, set, found.atom, found.access.fetched.as_slice())
}

#[tactic(auto, using(crate::proofs::SetFacts::columns_more, crate::proofs::SetFacts::columns_past))]
fn add_columns(block: &Normal, atom: u16, columns: &[ColumnId], set: &mut [bool])
    ensures { set.new ≡ with_classes set.old (map (class_at block.now atom) columns.now) }
{
    for column in columns {
        let class = usize::from(class_at(block, atom, *column));
        if class < set.len() {
            set[class] = true;
        }
    }
}

/// Adds the classes of key and fetched columns of a use.
#[tactic(auto, using(crate::proofs::SetFacts::with_members))]
pub fn add_use(block: &Normal, found: &UseAt<'_>, set: &mut [bool])
    ensures { set.new ≡ with_use block.now set.old (as_use found.now) }
{
    add_columns(block, found.atom, found.access.key.as_slice(), set);
    add_columns(block, found.atom, found.access.fetched.as_slice(), set);
}

#[tactic(auto, using(crate::proofs::SetFacts::places_more, crate::proofs::SetFacts::places_past))]
fn add_places(block: &Normal, places: &[Place], set: &mut [bool])
    ensures { set.new ≡ with_classes set.old (map (place_class block.now) places.now) }
{
    for place in places {
        let class = usize::from(class_at(block, place.atom, place.column));
        if class < set.len() {
            set[class] = true;
        }
    }
}

/// The classes that are bound before the first step of a block: those of its constants, and if it is guided those of its
/// output too. It takes one block of memory, in which the set may grow.
pub fn start_of(alloc: Global, block: &Normal, guided: bool) -> Result<Vec<bool>, NoMemory>
    ensures { IfOk result (λ set. set.items ≡ start_classes block.now guided) }
{
    let mut set = constant_classes(alloc, block)?.into_vec();
    if !guided {
        return Ok(set);
    }
    add_places(block, block.output.as_slice(), &mut set);
    Ok(set)
}
