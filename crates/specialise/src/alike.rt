// Constraints that no set of candidates tells apart, of which one is enough.
ghost use Rattle.std.specs.Prelude.{◌≡◌, ◌++◌, ◌∷◌, ◌⊎◌, [], IfOk, IsTrue, OnOk};
ghost use Rattle.specialise.specs.Alike.{AreAlike, IsStoodFor, StandFor};

use attribute_closure::are_same_columns;
use beas_core::{Access, Duplicate, List, NoMemory};
use std::alloc::Global;

/// A constraint is compared with so many others at most, so that many that differ take no time that grows with their square.
const COMPARED: usize = 256;

fn are_alike(one: &Access, other: &Access) -> bool
    ensures { IsTrue result → AreAlike one.now other.now }
{
    if one.table.0 != other.table.0 {
        return false;
    }
    if !are_same_columns(one.key.as_slice(), other.key.as_slice()) {
        return false;
    }
    are_same_columns(one.fetched.as_slice(), other.fetched.as_slice())
}

// Whether one of the first constraints is like this one.
fn is_stood_for(few: &[Access], access: &Access) -> bool
    ensures { IsTrue result → IsStoodFor few.now access.now }
{
    for other in few {
        if are_alike(other, access) {
            return true;
        }
    }
    false
}

// Adds a copy of a constraint, unless one of the first is like it.
fn push_unlike(alloc: Global, access: &Access, few: &mut List<Access>) -> Result<(), NoMemory>
    ensures { OnOk result (((few.new ≡ few.old) × IsStoodFor few.old access.now)
        ⊎ (few.new ≡ few.old ++ access.now ∷ [])) }
{
    let compared = few.len().min(COMPARED);
    if is_stood_for(&few.as_slice()[..compared], access) {
        return Ok(());
    }
    few.push(access.copy(alloc)?)
}

/// Copies of some of the constraints, one like each of them. Those that are like an earlier one are mostly left out.
pub(crate) fn without_alike(alloc: Global, accesses: &[Access]) -> Result<List<Access>, NoMemory>
    ensures { IfOk result (λ few. StandFor few accesses.now) }
{
    let mut few = List::new(alloc);
    for access in accesses {
        push_unlike(alloc, access, &mut few)?;
    }
    Ok(few)
}
