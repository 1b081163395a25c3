// A table as it was.
ghost use Rattle.std.specs.Prelude.{◌≡◌, All};
ghost use Rattle.beas_core.specs.declared.schema.TableId.{TableId as Number};
ghost use Rattle.beas_core.specs.Derivations.{is_live};

use beas_core::{AccessId, AccessPort, TableId};

/// A port of one table as it was, with the constraints on it that were live then.
pub trait Part: AccessPort {
    /// Its table.
    ghost table_of: { Self → Number };

    /// Its table. Takes no memory.
    fn table(&self) -> TableId
        ensures { result ≡ table_of self.now };

    /// Whether one of its constraints has this id. Takes no memory.
    fn has(&self, id: AccessId) -> bool
        ensures { result ≡ is_live (Self.accesses self.now) id };

    /// All its constraints are on the table.
    ghost on_table: { (s : Self) → All (λ a. a.table ≡ table_of s) (Self.accesses s) };
}
