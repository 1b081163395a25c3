// The least set of classes that constraints cover, from a start.
ghost use Rattle.std.specs.Prelude.{◌≡◌, ◌<◌, IfOk, length};
ghost use Rattle.beas_core.specs.Coverage.{ClassesInRange, covered_set, own_cover};
ghost use Rattle.attribute_closure.specs.Keys.{KeysAreCounted};

use crate::classes::constant_classes;
use crate::keys::Keys;
use beas_core::{Access, List, NoMemory, Normal};
use std::alloc::Global;

/// The least set that holds the start and, of each use of a constraint, the fetched classes where it holds those of
/// the key: one truth value for each class.
pub fn close_from(
    alloc: Global,
    block: &Normal,
    accesses: &List<Access>,
    start: &[bool],
) -> Result<List<bool>, NoMemory>
    requires ranges { ClassesInRange block.now }
    requires atoms { length block.now.atoms < 65536 }
    requires classes { length start.now ≡ block.now.count }
    ensures { IfOk result (λ set. set ≡ covered_set block.now accesses.now start.now) }
{
    let mut keys = Keys::of(alloc, block, accesses.as_slice())?;
    keys.add_set(block, start)?;
    let mut next = 0;
    while next < keys.ready.len() {
        let found = keys.uses.as_slice()[keys.ready.as_slice()[next]];
        keys.add_columns(block, found.atom, found.access.fetched.as_slice())?;
        next += 1;
    }
    Ok(List::from_vec(keys.set))
}

/// The covered set of a block by itself: one truth value for each class.
pub fn close(alloc: Global, block: &Normal, accesses: &List<Access>) -> Result<List<bool>, NoMemory>
    requires ranges { ClassesInRange block.now }
    requires atoms { length block.now.atoms < 65536 }
    ensures { IfOk result (λ set. set ≡ own_cover block.now accesses.now) }
{
    let start = constant_classes(alloc, block)?;
    close_from(alloc, block, accesses, start.as_slice())
}
