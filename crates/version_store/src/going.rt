// How an open query goes on: by one probe, or by its answer.
ghost use Rattle.std.specs.Prelude.{◌≡◌, ◌<◌, ◌==◌, true, IfOk, IsErr, IsTrue, List, None, OnErr, Some, is_some, length, position, remove, slice_index_or};
ghost use Rattle.beas_core.specs.Types.{Row as Values};
ghost use Rattle.cursor_executor.specs.Turns.{QuerySpent, TurnIs};
ghost use Rattle.outside.specs.Seen.{Seen};
ghost use Rattle.piece_reader.specs.declared.event.Event.TheVariants.{Stepped};
ghost use Rattle.version_store.specs.Turns.{Goes};
ghost use Rattle.report.specs.declared.reports.Report.TheVariants.{Answered};
ghost use Rattle.session.specs.Applying.{database_of};
ghost use Rattle.version_store.specs.Desks.{IsTaken, without_query_of};
ghost use Rattle.version_store.specs.Stored.{AreKept, IsOpenAt, Open, held_at, seen_in, world_at};

use crate::open::OpenQuery;
use crate::store::{CurrentStore, KeptTable};
use crate::turns::turn;
use beas_core::{NoMemory, Refusal, Steps};
use catalogue::recall_soundness;
use cursor_executor::Turn;
use report::Report;
use session::Session;
use std::alloc::Global;
use std::sync::ledger::Ledger;

/// Where a session's query stands among the open ones, if it has one.
pub fn position_of(queries: &[OpenQuery<KeptTable>], number: u32) -> Option<usize>
    ensures { result ≡ position (λ query. query.session == number) queries.now }
{
    queries.iter().position(|query| query.session == number)
}

// One turn of an open query.
fn turn_over<L: Ledger>(
    alloc: Global,
    session: &Session,
    query: &mut OpenQuery<KeptTable>,
    steps: &mut Steps<L>,
) -> Result<Turn, NoMemory>
    requires kept { IsOpenAt (database_of session.now) query.old }
    ensures kept { IsOpenAt (database_of session.now) query.new }
    ensures session { query.new.session ≡ query.old.session }
    ensures went { IfOk result (λ turn. Goes turn (held_at (database_of session.now) query.old)
        query.old.cursor query.new.cursor (held_at (database_of session.now) query.new) steps.old steps.new) }
    ensures lost { OnErr result (held_at (database_of session.now) query.new
        ≡ record (held_at (database_of session.now) query.old) { made = None }) }
    ensures turn { IfOk result (λ turn. TurnIs (world_at (database_of session.now) query.old)
        turn query.old.cursor query.new.cursor steps.old steps.new) }
    ensures spent { OnErr result (QuerySpent (world_at (database_of session.now) query.old)
        query.old.cursor.prepared query.old.cursor.fetched steps.old steps.new) }
    ensures failed_before { query.old.cursor.failed ≡ true → IsErr result × (steps.new ≡ steps.old) }
{
    // A query is open over a schema that is sound.
    recall_soundness(&session.guarded.catalogue);
    let store = CurrentStore {
        store: &session.guarded,
    };
    turn(alloc, &store, query, steps)
}

// Takes a query whose probes have all been made off the list, and gives its answer. It is a call of its own, so that a step
// that makes a probe clears no room for a query.
#[inline(never)]
fn close(queries: &mut Vec<OpenQuery<KeptTable>>, place: usize) -> Report
    requires there { place < length queries.old.items }
    requires answered { (query : Open) → query ≡ slice_index_or queries.old.items place query
        → IsTrue (is_some query.cursor.answer) }
    ensures left { queries.new.items ≡ remove queries.old.items place }
    ensures report { (query : Open) → query ≡ slice_index_or queries.old.items place query
        → (rows : List Values) → query.cursor.answer ≡ Some rows
        → result ≡ Answered query.cursor.prepared.bound query.plan query.header rows query.cursor.reads }
{
    let query = queries.remove(place);
    let bound = query.cursor.prepared().bound;
    let plan = query.plan;
    let header = query.header;
    let answer = query.cursor.finish();
    Report::Answered {
        bound,
        plan,
        header,
        rows: answer.rows,
        reads: answer.reads,
    }
}

/// Goes on with the session's open query: by one probe where one is due, and else to its answer, with which it is closed.
/// Out of memory that query is lost.
pub fn step<L: Ledger>(
    alloc: Global,
    session: &Session,
    queries: &mut Vec<OpenQuery<KeptTable>>,
    number: u32,
    steps: &mut Steps<L>,
) -> Result<Report, NoMemory>
    requires kept { AreKept (database_of session.now) queries.old.items }
    ensures kept { AreKept (database_of session.now) queries.new.items }
    ensures taken { (files : Seen) → IsTaken (Stepped number) result
        (seen_in session.now queries.old.items) (seen_in session.now queries.new.items)
        steps.old steps.new files files }
{
    let Some(place) = position_of(queries.as_slice(), number) else {
        return Ok(Report::Refused {
            why: Refusal::SessionIdle { session: number },
        });
    };
    match turn_over(alloc, session, &mut queries[place], steps)? {
        Turn::Probed => Ok(Report::Probed { session: number }),
        Turn::Done => Ok(close(queries, place)),
    }
}

/// Drops the open query of a session, where it has one.
pub fn drop_query(session: &Session, queries: &mut Vec<OpenQuery<KeptTable>>, number: u32)
    requires kept { AreKept (database_of session.now) queries.old.items }
    ensures kept { AreKept (database_of session.now) queries.new.items }
    ensures dropped { seen_in session.now queries.new.items
        ≡ without_query_of number (seen_in session.now queries.old.items) }
{
    if let Some(place) = position_of(queries.as_slice(), number) {
        drop(queries.remove(place));
    }
}
