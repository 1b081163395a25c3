//! The normal form of a block: its places sorted into classes of equal value, and the columns that each atom needs.
#![tactic(auto)]

mod labels;
mod needed;
mod places;
mod query_blocks;

ghost use Rattle.std.specs.Prelude.{◌≡◌, IfOk, false, length, replicate};
ghost use Rattle.beas_core.specs.Classes.{normal_of};
ghost use Rattle.beas_core.specs.Shapes.{BlockIsWellFormed};

use crate::labels::{number_classes, write_labels};
use crate::needed::note_block;
use crate::places::Places;
use beas_core::{Block, Duplicate, NoMemory, Normal};
pub use query_blocks::blocks;
use std::alloc::Global;

/// The most places whose labels and truth values lie in the call's own frame. Those of more take blocks of memory.
const FEW_PLACES: usize = 64;

// The normal form of a block. Labels and truth values have room for as many places as it has.
#[tactic(auto, using(crate::proofs::Used::normal_is))]
fn normal_over(
    alloc: Global,
    block: &Block,
    places: &Places<'_>,
    labels: &mut [u16],
    used: &mut [bool],
) -> Result<Normal, NoMemory>
    requires block { BlockIsWellFormed block.now }
    requires atoms { places.now.atoms.now ≡ block.now.atoms }
    requires labels { length labels.old ≡ places.now.count }
    requires used { used.old ≡ replicate places.now.count false }
    ensures { IfOk result (λ normal. normal ≡ normal_of block.now) }
{
    write_labels(places, block.equalities.as_slice(), labels);
    let count = number_classes(places, labels);
    note_block(places, block, used);
    Ok(Normal {
        atoms: block.atoms.copy(alloc)?,
        classes: places.class_lists(alloc, labels)?,
        count,
        constants: places.constants_at(alloc, labels, block.constants.as_slice())?,
        needed: places.used_lists(alloc, used)?,
        comparisons: block.comparisons.copy(alloc)?,
        output: block.output.copy(alloc)?,
    })
}

/// The normal form of a block. Classes are numbered in order of their first place, by atom and then column.
pub fn normalise(alloc: Global, block: &Block) -> Result<Normal, NoMemory>
    requires { BlockIsWellFormed block.now }
    ensures { IfOk result (λ normal. normal ≡ normal_of block.now) }
{
    let places = Places::of(block.atoms.as_slice());
    let count = usize::from(places.count);
    if count <= FEW_PLACES {
        let mut labels = [0; FEW_PLACES];
        let mut used = [false; FEW_PLACES];
        return normal_over(
            alloc,
            block,
            &places,
            &mut labels[..count],
            &mut used[..count],
        );
    }
    let mut labels = vec![in alloc; 0; count]?;
    let mut used = vec![in alloc; false; count]?;
    normal_over(alloc, block, &places, &mut labels, &mut used)
}
