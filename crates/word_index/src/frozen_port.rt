// Plans read a frozen table through the indexes of its constraints.
use crate::frozen::Frozen;
use beas_core::{Access, AccessId, AccessPort, ColumnId, Hits, Steps, Value};
use std::sync::ledger::Ledger;

impl AccessPort for Frozen {
    ghost use Rattle.word_index.specs.Freezing.{part_in, members_in, stands_in};
    ghost use Rattle.word_index.specs.Parts.{rows_in};

    ghost rows = { λ f. rows_in (part_in f) };

    ghost accesses = { λ f. f.accesses };

    ghost members = { members_in };

    ghost stands = { stands_in };

    fn access(&self, id: AccessId) -> &Access {
        let accesses = self.accesses.as_slice();
        &accesses[self.position(id)]
    }

    fn probe<L: Ledger>(&self, id: AccessId, key: &[Value], steps: &mut Steps<L>) -> Hits {
        let place = self.position(id);
        self.indexes.probe(place, key, steps)
    }

    fn value(&self, hits: &Hits, i: u32, column: ColumnId) -> &Value {
        let place = self.position(hits.access());
        self.indexes.value(place, hits, i, column)
    }
}
