// A port with the constraints of scans besides its own.
ghost use Rattle.std.specs.Prelude.{◌≡◌};
ghost use Rattle.std.specs.Option.{option_copied};
ghost use Rattle.partial_plan.specs.Scans.{IndexesStand, index_with};

use crate::sharing::ScanIndex;
use beas_core::{Access, AccessId, AccessPort, ColumnId, Hits, Steps, Value};
use std::sync::ledger::Ledger;

/// A port, and indexes of scans over its rows whose ids aren't those of its own constraints.
#[derive(Drop)]
pub struct ScanPort<'a, P: AccessPort> {
    pub port: &'a P,
    pub indexes: &'a [ScanIndex],
    ghost stand: { IndexesStand (P.accesses port.now) (P.rows port.now) indexes.now },
}

// The index of the constraint with this id, if there is one.
fn index_with(indexes: &[ScanIndex], id: AccessId) -> Option<&ScanIndex>
    ensures { option_copied result ≡ index_with indexes.now id }
{
    indexes.iter().find(|index| index.access().id == id)
}

impl<P: AccessPort> AccessPort for ScanPort<'_, P> {
    ghost use Rattle.partial_plan.specs.Scans.{StandsWith, accesses_with, index_with, members_with};

    ghost rows = { λ s. P.rows s.port.now };

    ghost accesses = { λ s. accesses_with (P.accesses s.port.now) s.indexes.now };

    ghost members = { λ s found. members_with (index_with s.indexes.now found.access) found (P.members s.port.now found) };

    ghost stands = { λ s found. StandsWith (index_with s.indexes.now found.access) found (P.stands s.port.now found) };

    fn access(&self, id: AccessId) -> &Access {
        match index_with(self.indexes, id) {
            Some(index) => index.access(),
            None => self.port.access(id),
        }
    }

    fn probe<L: Ledger>(&self, id: AccessId, key: &[Value], steps: &mut Steps<L>) -> Hits {
        match index_with(self.indexes, id) {
            Some(index) => index.probe(key, steps),
            None => self.port.probe(id, key, steps),
        }
    }

    fn value(&self, hits: &Hits, i: u32, column: ColumnId) -> &Value {
        match index_with(self.indexes, hits.access()) {
            Some(index) => index.value(hits, i, column),
            None => self.port.value(hits, i, column),
        }
    }
}
