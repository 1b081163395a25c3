// A port of parts and of a store.
ghost use Rattle.std.specs.Prelude.{◌≡◌, position};
ghost use Rattle.beas_core.specs.Shapes.{EachIdOnce};
ghost use Rattle.desk_model.specs.Kept.{AreApart, has_id};

use beas_core::{Access, AccessId, AccessPort, ColumnId, Hits, Steps, Value};
use desk_model::Part;
use std::sync::ledger::Ledger;

// The place of the first part with a constraint of this id, if there is one.
fn part_with<P: Part>(parts: &[P], id: AccessId) -> Option<usize>
    ensures { result ≡ position (has_id P.accesses id) parts.now }
{
    parts.iter().position(|part| part.has(id))
}

/// The rows and the constraints of each table from its part, where it has one, and else from the guard. No table has
/// two parts, and no two of the guard's constraints have one id. Its constraints stand in the order of the parts, those
/// of one part after those of another, and then come the guard's: so in order of creation only within each.
#[derive(Drop)]
pub struct KeptPort<'a, G: AccessPort, P: Part> {
    pub guard: &'a G,
    pub parts: &'a [P],
    ghost once: { EachIdOnce (G.accesses guard.now) },
    ghost apart: { AreApart P.table_of parts.now },
}

impl<G: AccessPort, P: Part> AccessPort for KeptPort<'_, G, P> {
    ghost use Rattle.desk_model.specs.Kept.{StandsWith, accesses_with, chosen, rows_with};

    ghost rows = { λ s. rows_with P.table_of P.rows s.parts.now (G.rows s.guard.now) };

    ghost accesses = { λ s. accesses_with P.table_of P.accesses s.parts.now (G.accesses s.guard.now) };

    ghost members = { λ s found. chosen P.accesses (λ p. P.members p found) s.parts.now
        (G.members s.guard.now found) found.access };

    ghost stands = { λ s found. StandsWith P.accesses (λ p. P.stands p found) s.parts.now
        (G.stands s.guard.now found) found.access };

    fn access(&self, id: AccessId) -> &Access {
        match part_with(self.parts, id) {
            Some(place) => self.parts[place].access(id),
            None => self.guard.access(id),
        }
    }

    fn probe<L: Ledger>(&self, id: AccessId, key: &[Value], steps: &mut Steps<L>) -> Hits {
        match part_with(self.parts, id) {
            Some(place) => self.parts[place].probe(id, key, steps),
            None => self.guard.probe(id, key, steps),
        }
    }

    fn value(&self, hits: &Hits, i: u32, column: ColumnId) -> &Value {
        match part_with(self.parts, hits.access()) {
            Some(place) => self.parts[place].value(hits, i, column),
            None => self.guard.value(hits, i, column),
        }
    }
}
