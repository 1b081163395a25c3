// Plans read the store through the indexes of its constraints.
use crate::guarded::WordGuarded;
use beas_core::{Access, AccessId, AccessPort, ColumnId, Hits, Steps, Value};
use std::sync::ledger::Ledger;
use update_guard::port::live_access;

impl AccessPort for WordGuarded {
    ghost use Rattle.catalogue.specs.Database.{rows_at};
    ghost use Rattle.word_index.specs.Stored.{database_in, members_of, stands_in};

    ghost rows = { λ g. rows_at (database_in g) };

    ghost accesses = { λ g. g.catalogue.accesses };

    ghost members = { members_of };

    ghost stands = { stands_in };

    fn access(&self, id: AccessId) -> &Access {
        live_access(&self.catalogue, id)
    }

    fn probe<L: Ledger>(&self, id: AccessId, key: &[Value], steps: &mut Steps<L>) -> Hits {
        let place = self.catalogue.position(id);
        self.indexes.probe(place, key, steps)
    }

    fn value(&self, hits: &Hits, i: u32, column: ColumnId) -> &Value {
        let place = self.catalogue.position(hits.access());
        self.indexes.value(place, hits, i, column)
    }
}
