// Copies of indexes over codes.
ghost use Rattle.std.specs.Prelude.{◌≡◌, ◌<◌, List, length, map, All, IfOk};
ghost use Rattle.beas_core.specs.declared.value.Value.{Value as Cell};
ghost use Rattle.update_guard.specs.Seen.{index_at};
ghost use Rattle.word_index.specs.Kept.{meanings, AreKept};

use crate::any::AnyIndex;
use beas_core::NoMemory;
use std::alloc::Global;

/// Copies of the indexes at some places, in the order of these.
pub fn copies_at(
    alloc: Global,
    indexes: &[AnyIndex],
    places: &[usize],
) -> Result<Vec<AnyIndex>, NoMemory>
    requires { All (λ place. place < length indexes.now) places.now }
    ensures same { IfOk result (λ copies. (codes : List Cell)
        → meanings codes copies.items ≡ map (index_at (meanings codes indexes.now)) places.now) }
    ensures kept { IfOk result (λ copies. (codes : List Cell) → AreKept codes indexes.now → AreKept codes copies.items) }
{
    let mut copies = Vec::with_capacity(alloc, places.len())?;
    for i in 0..places.len() {
        let copy = indexes[places[i]].copy(alloc)?;
        copies.push(copy)?;
    }
    Ok(copies)
}
