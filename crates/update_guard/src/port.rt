// Plans read the store through the indexes of its constraints.
ghost use Rattle.std.specs.Prelude.{◌≡◌, ◌≤◌, List, IsTrue};
ghost use Rattle.beas_core.specs.Derivations.{access_in, is_live};
ghost use Rattle.beas_core.specs.Groups.{Holds};
ghost use Rattle.beas_core.specs.Types.{Row};
ghost use Rattle.access_index.specs.Index.{Index};
ghost use Rattle.catalogue.specs.Database.{rows_at};
ghost use Rattle.catalogue.specs.Stored.{database_of};
ghost use Rattle.update_guard.specs.Guarding.{IsGuarded};

use crate::guarded::Guarded;
use beas_core::{Access, AccessId, AccessPort, ColumnId, Hits, Steps, Value};
use catalogue::Catalogue;
use std::sync::ledger::Ledger;

/// The live constraint with this id. It holds over its table's rows, in whatever store they are. It takes no memory.
pub fn live_access(catalogue: &Catalogue, id: AccessId) -> &Access
    requires { IsTrue (is_live catalogue.now.accesses id) }
    ensures access { result.now ≡ access_in catalogue.now.accesses id }
    ensures holds { (rows : List (List Row)) (indexes : List Index) → IsGuarded catalogue.now rows indexes
        → Holds (rows_at (database_of catalogue.now rows) result.now.table) result.now }
    ensures bound { 1 ≤ result.now.bound }
{
    let accesses = catalogue.accesses().as_slice();
    &accesses[catalogue.position(id)]
}

impl AccessPort for Guarded {
    ghost use Rattle.catalogue.specs.Database.{rows_at};
    ghost use Rattle.update_guard.specs.Stored.{database_in, members_of, stands_in};

    ghost rows = { λ g. rows_at (database_in g) };

    ghost accesses = { λ g. g.catalogue.accesses };

    ghost members = { members_of };

    ghost stands = { stands_in };

    fn access(&self, id: AccessId) -> &Access {
        live_access(&self.catalogue, id)
    }

    fn probe<L: Ledger>(&self, id: AccessId, key: &[Value], steps: &mut Steps<L>) -> Hits {
        let place = self.catalogue.position(id);
        self.indexes.as_slice()[place].probe(key, steps)
    }

    fn value(&self, hits: &Hits, i: u32, column: ColumnId) -> &Value {
        let place = self.catalogue.position(hits.access());
        self.indexes.as_slice()[place].value(hits, i, column)
    }
}
