// Copies of the items of a vector.
ghost use Rattle.std.specs.Prelude.{◌≡◌, IfOk};

use beas_core::{Duplicate, NoMemory};
use std::alloc::Global;

/// Equal items in their order, with no room for more.
pub(crate) fn copies_of<T: Duplicate>(alloc: Global, items: &[T]) -> Result<Vec<T>, NoMemory>
    ensures { IfOk result (λ copies. copies.items ≡ items.now) }
{
    let mut copies = Vec::with_capacity(alloc, items.len())?;
    for item in items {
        copies.push(item.copy(alloc)?)?;
    }
    Ok(copies)
}
