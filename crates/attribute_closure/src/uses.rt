// Uses of access constraints on the atoms of a block.
ghost use Rattle.std.specs.Prelude.{◌≡◌, ◌==◌, ◌<◌, ◌≤◌, ◌++◌, IfOk, IfSome, OnOk, filter, length, map, take};
ghost use Rattle.beas_core.specs.Coverage.{uses};
ghost use Rattle.beas_core.specs.Types.{Use};
ghost use Rattle.attribute_closure.specs.Uses.{as_use};

use beas_core::{Access, List, NoMemory, Normal, TableId};
use std::alloc::Global;

/// A use of an access constraint on an atom of a block.
#[derive(Clone, Copy)]
pub struct UseAt<'a> {
    pub atom: u16,
    pub access: &'a Access,
}

#[tactic(auto, using(crate::proofs::Listed::uses_more_yes, crate::proofs::Listed::uses_more_no))]
fn push_uses<'a>(
    accesses: &'a [Access],
    atom: u16,
    table: TableId,
    found: &mut List<UseAt<'a>>,
) -> Result<(), NoMemory>
    ensures { OnOk result (map as_use found.new
        ≡ map as_use found.old
        ++ map (λ access. record { atom = atom; access = access })
        (filter (λ access. access.table.0 == table.0) accesses.now)) }
{
    for access in accesses {
        if access.table.0 == table.0 {
            found.push(UseAt { atom, access })?;
        }
    }
    Ok(())
}

/// Each atom with each constraint on its table, by atom and then in the constraints' order.
#[tactic(auto, using(crate::proofs::Listed::uses_by_atom, crate::proofs::Listed::uses_of_all))]
pub fn uses_of<'a>(
    alloc: Global,
    block: &Normal,
    accesses: &'a [Access],
) -> Result<List<UseAt<'a>>, NoMemory>
    requires { length block.now.atoms < 65536 }
    ensures { IfOk result (λ found. map as_use found ≡ uses block.now accesses.now) }
{
    let mut found = List::new(alloc);
    for (number, atom) in block.atoms.as_slice().iter().enumerate() {
        push_uses(accesses, number as u16, atom.table, &mut found)?;
    }
    Ok(found)
}

// Puts the uses of the constraints on an atom's table after those that are there, and says how many there are then.
// Nothing where there isn't room for them all.
#[tactic(auto, using(crate::proofs::Listed::uses_more_yes, crate::proofs::Listed::uses_more_no))]
fn put_uses<'a>(
    accesses: &'a [Access],
    atom: u16,
    table: TableId,
    there: usize,
    found: &mut [UseAt<'a>],
) -> Option<usize>
    requires { there ≤ length found.old }
    ensures len { length found.new ≡ length found.old }
    ensures within { IfSome result (λ count. count ≤ length found.old) }
    ensures uses { IfSome result (λ count. map as_use (take count found.new)
        ≡ map as_use (take there found.old)
        ++ map (λ access. record { atom = atom; access = access })
        (filter (λ access. access.table.0 == table.0) accesses.now)) }
{
    let mut count = there;
    for access in accesses {
        if access.table.0 == table.0 {
            if count == found.len() {
                return None;
            }
            found[count] = UseAt { atom, access };
            count += 1;
        }
    }
    Some(count)
}

/// Puts each atom with each constraint on its table, in the order of `uses_of`, where the caller has room for them, and
/// says how many there are. Nothing where there isn't room for them all. It takes no memory.
#[tactic(auto, using(crate::proofs::Listed::uses_by_atom, crate::proofs::Listed::uses_of_all))]
pub fn uses_within<'a>(
    block: &Normal,
    accesses: &'a [Access],
    found: &mut [UseAt<'a>],
) -> Option<usize>
    requires { length block.now.atoms < 65536 }
    ensures len { length found.new ≡ length found.old }
    ensures within { IfSome result (λ count. count ≤ length found.old) }
    ensures uses { IfSome result (λ count. map as_use (take count found.new) ≡ uses block.now accesses.now) }
{
    let mut count = 0;
    for (number, atom) in block.atoms.as_slice().iter().enumerate() {
        count = put_uses(accesses, number as u16, atom.table, count, found)?;
    }
    Some(count)
}
