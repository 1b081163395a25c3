// Copies that equal their source, which `Clone` doesn't say of every type.
ghost use Rattle.std.specs.Prelude.{◌≡◌, IfOk};

use crate::errors::NoMemory;
use crate::schema::{Access, ColumnId};
use std::alloc::Global;

/// A value that can be copied where memory is there.
pub trait Duplicate: Drop {
    /// An equal value.
    fn copy(&self, alloc: Global) -> Result<Self, NoMemory>
        ensures { IfOk result (λ copy. copy ≡ self.now) };
}

impl Duplicate for ColumnId {
    fn copy(&self, _alloc: Global) -> Result<ColumnId, NoMemory> {
        Ok(*self)
    }
}

impl Duplicate for Access {
    fn copy(&self, alloc: Global) -> Result<Access, NoMemory> {
        Ok(Access {
            id: self.id,
            name: self.name.copy(alloc)?,
            table: self.table,
            key: self.key.copy(alloc)?,
            fetched: self.fetched.copy(alloc)?,
            bound: self.bound,
        })
    }
}
