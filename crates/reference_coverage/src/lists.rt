// Lists as the definitions build them.
ghost use Rattle.std.specs.Prelude.{◌≡◌, ◌++◌, ◌∷◌, IfOk};

use beas_core::{List, NoMemory};
use std::alloc::Global;

/// The items of both lists, one after the other.
pub fn append<T: Drop>(left: List<T>, right: List<T>) -> Result<List<T>, NoMemory>
    ensures { IfOk result (λ all. all ≡ left ++ right) }
{
    let mut all = left;
    for item in right.into_vec() {
        all.push(item)?;
    }
    Ok(all)
}

/// A list with one more item before it.
pub fn with_first<T: Drop>(alloc: Global, first: T, rest: List<T>) -> Result<List<T>, NoMemory>
    ensures { IfOk result (λ all. all ≡ first ∷ rest) }
{
    let mut all = List::new(alloc);
    all.push(first)?;
    append(all, rest)
}
