// Access constraints, and their uses on the atoms of a block.
ghost use Rattle.std.specs.Prelude.{◌≡◌, ◌<◌, ◌++◌, ◌==◌, map, filter, find, length, IfOk, OnOk};
ghost use Rattle.std.specs.Option.{option_copied};
ghost use Rattle.beas_core.specs.Coverage.{uses};
ghost use Rattle.beas_core.specs.Groups.{member_columns};

use crate::lists::append;
use beas_core::{Access, AccessId, Atom, ColumnId, Duplicate, List, NoMemory, Normal};
use std::alloc::Global;
use std::marker::Model;

/// A use of an access constraint on an atom.
#[derive(Drop)]
pub struct AccessUse<'a> {
    pub atom: u16,
    pub access: &'a Access,
}

impl<'a> Model for AccessUse<'a> {
    ghost use Rattle.beas_core.specs.Types.{Use};

    ghost Value = { Use };

    ghost view = { λ u. record { atom = u.atom; access = u.access.now } };
}

impl<'a> AccessUse<'a> {
    /// The same use once more, which takes no memory.
    pub fn again(&self) -> AccessUse<'a>
        ensures { result ≡ self.now }
    {
        AccessUse {
            atom: self.atom,
            access: self.access,
        }
    }
}

/// The constraint with this id.
pub fn access_with(accesses: &[Access], id: AccessId) -> Option<&Access>
    ensures { option_copied result ≡ find (λ a. a.id.0 == id.0) accesses.now }
{
    accesses.iter().find(|access| access.id.0 == id.0)
}

/// The key columns of a constraint, and then the fetched ones.
pub fn member_columns(alloc: Global, access: &Access) -> Result<List<ColumnId>, NoMemory>
    ensures { IfOk result (λ columns. columns ≡ member_columns access.now) }
{
    let key = access.key.copy(alloc)?;
    append(key, access.fetched.copy(alloc)?)
}

// Adds the uses on one atom.
fn push_uses<'a>(
    found: &mut List<AccessUse<'a>>,
    number: u16,
    atom: Atom,
    accesses: &'a [Access],
) -> Result<(), NoMemory>
    ensures { OnOk result (found.new ≡ found.old
        ++ map (λ access. record { atom = number; access = access })
        (filter (λ access. access.table.0 == atom.table.0) accesses.now)) }
{
    for access in accesses {
        if access.table.0 == atom.table.0 {
            found.push(AccessUse {
                atom: number,
                access,
            })?;
        }
    }
    Ok(())
}

/// Each atom with each constraint on its table.
pub fn uses<'a>(
    alloc: Global,
    normal: &Normal,
    accesses: &'a [Access],
) -> Result<List<AccessUse<'a>>, NoMemory>
    requires { length normal.now.atoms < 65536 }
    ensures { IfOk result (λ found. found ≡ uses normal.now accesses.now) }
{
    let mut found = List::new(alloc);
    for (number, atom) in normal.atoms.as_slice().iter().enumerate() {
        push_uses(&mut found, number as u16, *atom, accesses)?;
    }
    Ok(found)
}
