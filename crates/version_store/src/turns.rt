// One turn of an open query.
ghost use Rattle.std.specs.Prelude.{◌≡◌, true, IfOk, IsErr, None, OnErr};
ghost use Rattle.cursor_executor.specs.Turns.{QuerySpent, TurnIs};
ghost use Rattle.version_store.specs.Held.{IsOpen, held_of, world_of};
ghost use Rattle.version_store.specs.Turns.{Goes};

use crate::open::{Freezes, OpenQuery};
use crate::port::KeptPort;
use beas_core::{NoMemory, Steps};
use cursor_executor::Turn;
use desk_model::Part;
use std::alloc::Global;
use std::sync::ledger::Ledger;

/// Makes the next probe of a query that is due, and no other, over the parts that are kept for it and the store. It counts
/// the greater of 1 and the number of tuples that the probe finds. Where none is due its answer is there. Out of memory,
/// its cursor has failed, and so it says at each further turn.
pub fn turn<G: Freezes<P>, P: Part, L: Ledger>(
    alloc: Global,
    guard: &G,
    query: &mut OpenQuery<P>,
    steps: &mut Steps<L>,
) -> Result<Turn, NoMemory>
    requires kept { IsOpen P.table_of P.rows P.accesses (G.rows guard.now) (G.accesses guard.now) query.old }
    ensures kept { IsOpen P.table_of P.rows P.accesses (G.rows guard.now) (G.accesses guard.now) query.new }
    ensures session { query.new.session ≡ query.old.session }
    ensures went { IfOk result (λ turn. Goes turn
        (held_of P.table_of P.rows P.accesses (G.rows guard.now) (G.accesses guard.now) query.old)
        query.old.cursor query.new.cursor
        (held_of P.table_of P.rows P.accesses (G.rows guard.now) (G.accesses guard.now) query.new)
        steps.old steps.new) }
    ensures lost { OnErr result
        (held_of P.table_of P.rows P.accesses (G.rows guard.now) (G.accesses guard.now) query.new
        ≡ record (held_of P.table_of P.rows P.accesses (G.rows guard.now) (G.accesses guard.now) query.old)
        { made = None }) }
    ensures turn { IfOk result (λ turn. TurnIs (world_of P.table_of P.rows P.accesses (G.rows guard.now)
        (G.accesses guard.now) query.old.parts.items) turn query.old.cursor query.new.cursor steps.old steps.new) }
    ensures spent { OnErr result (QuerySpent (world_of P.table_of P.rows P.accesses (G.rows guard.now)
        (G.accesses guard.now) query.old.parts.items) query.old.cursor.prepared query.old.cursor.fetched
        steps.old steps.new) }
    ensures failed_before { query.old.cursor.failed ≡ true → IsErr result × (steps.new ≡ steps.old) }
{
    let port = KeptPort {
        guard,
        parts: &query.parts,
    };
    query.cursor.advance(alloc, &port, steps)
}
