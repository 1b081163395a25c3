// Drawn queries, prepared over small drawn tables and executed after more constraints were made.
ghost use Rattle.beas_core.specs.Fits.{Fits};
ghost use Rattle.catalogue.specs.Database.{rows_at};
ghost use Rattle.session.specs.Stores.{database_in};

use crate::additions::add_constraints;
use crate::announced::{is_canonical, is_prepared_so, is_refused_so};
use crate::constraints::draw_constraints;
use crate::outcomes::outcome_of;
use crate::tallies::{BUDGET, Tally};
use beas_core::{AccessSpec, Fail, List, NoMemory, Prepared, Query, Row, Steps};
use drawn_scenes::{
    Trial, Twin, announced_query, bound_query, draw_query, out_of_memory, try_scenes,
};
use reference_evaluation::{Planned, plan_query};
use session::{Session, Store};
use std::alloc::Global;
use std::io;
use std::sync::ledger::Ledger;

/// So many queries are drawn for one session.
const QUERIES: u32 = 14;

/// How many derivations lost steps in what the reference programs plan.
fn shortened_in(wanted: &Planned) -> u32 {
    match wanted {
        Planned::Covered(plans) => plans.shortened,
        _ => 0,
    }
}

/// Executes a prepared query after some constraints were made. It is to be prepared as the reference programs planned
/// it before they were.
fn executed<L: Ledger>(
    alloc: Global,
    guarded: &mut Store,
    specs: &[AccessSpec],
    tables: &[List<Row>],
    prepared: &Prepared,
    wanted: &Planned,
    steps: &mut Steps<L>,
) -> Result<Tally, NoMemory>
    requires { Fits guarded.old.catalogue.accesses (rows_at (database_in guarded.old)) prepared.now }
{
    let made = add_constraints(alloc, guarded, specs, prepared, steps)?;
    let outcome = outcome_of(alloc, guarded, tables, prepared, steps)?;
    let accesses = guarded.catalogue.accesses().as_slice();
    let is_other = made > 0 && !is_canonical(alloc, accesses, prepared)?;
    let is_wanted = outcome.is_wanted && is_prepared_so(prepared, wanted);
    Ok(Tally {
        drawn: 1,
        executed: 1,
        other: u32::from(is_other),
        shortened: shortened_in(wanted),
        guided: outcome.guided,
        differing: u32::from(!is_wanted),
    })
}

/// What came of a query that isn't announced.
fn failed(why: &Fail, wanted: &Planned) -> Result<Tally, NoMemory> {
    match why {
        Fail::Refused(why) => Ok(Tally::refused(is_refused_so(why, wanted, BUDGET))),
        Fail::NoMemory => Err(NoMemory),
    }
}

/// Tries a query that the reference programs plan so.
fn try_planned<L: Ledger>(
    alloc: Global,
    session: &mut Session,
    specs: &[AccessSpec],
    tables: &[List<Row>],
    spelled: &str,
    wanted: &Planned,
    steps: &mut Steps<L>,
) -> Result<Tally, NoMemory> {
    match announced_query(alloc, session, spelled) {
        Ok(prepared) => {
            let guarded = &mut session.guarded;
            executed(alloc, guarded, specs, tables, &prepared, wanted, steps)
        }
        Err(why) => {
            let tally = failed(&why, wanted);
            drop(why);
            tally
        }
    }
}

/// What the reference programs plan for a query, over the constraints as they are.
fn planned_by(alloc: Global, guarded: &Store, query: &Query) -> Result<Option<Planned>, NoMemory> {
    let accesses = guarded.catalogue.accesses().as_slice();
    Ok(Some(plan_query(alloc, accesses, query)?))
}

/// The same for a text that was bound so, and nothing where it spells no query.
fn planned_where(
    alloc: Global,
    guarded: &Store,
    bound: &Result<Query, Fail>,
) -> Result<Option<Planned>, NoMemory> {
    match bound {
        Ok(query) => planned_by(alloc, guarded, query),
        Err(Fail::Refused(_)) => Ok(None),
        Err(Fail::NoMemory) => Err(NoMemory),
    }
}

/// The same for the query that a text spells, and nothing where it spells none.
fn planned_query(
    alloc: Global,
    guarded: &Store,
    spelled: &str,
) -> Result<Option<Planned>, NoMemory> {
    let bound = bound_query(alloc, &guarded.catalogue, spelled);
    let planned = planned_where(alloc, guarded, &bound);
    drop(bound);
    planned
}

fn try_query<L: Ledger>(
    alloc: Global,
    session: &mut Session,
    specs: &[AccessSpec],
    tables: &[List<Row>],
    spelled: &str,
    steps: &mut Steps<L>,
) -> Result<Tally, NoMemory> {
    match planned_query(alloc, &session.guarded, spelled)? {
        Some(wanted) => try_planned(alloc, session, specs, tables, spelled, &wanted, steps),
        None => Ok(Tally::refused(false)),
    }
}

/// Tries a drawn query over a session with these rows, half of the time with one to three constraints that are made in
/// between, named by the numbers from `first` on.
fn try_with<L: Ledger>(
    alloc: Global,
    session: &mut Session,
    twin: &mut Twin,
    tables: &[List<Row>],
    spelled: &str,
    first: u32,
    steps: &mut Steps<L>,
) -> Result<Tally, NoMemory> {
    let count = twin.draws.below(6).saturating_sub(2);
    let specs = draw_constraints(alloc, twin, first, count)?;
    try_query(alloc, session, specs.as_slice(), tables, spelled, steps)
}

/// Tries drawn queries over a session with these rows.
fn try_drawn<L: Ledger>(
    alloc: Global,
    session: &mut Session,
    twin: &mut Twin,
    tables: &[List<Row>],
    before: Tally,
    steps: &mut Steps<L>,
) -> Result<Tally, NoMemory> {
    let mut tally = before;
    for nth in 0..QUERIES {
        let query = draw_query(alloc, &mut twin.draws)?;
        let spelled = query.as_str();
        tally = tally.with(try_with(alloc, session, twin, tables, spelled, 100 + 3 * nth, steps)?);
    }
    Ok(tally)
}

impl Trial for Tally {
    fn with_session<L: Ledger>(
        self,
        alloc: Global,
        session: &mut Session,
        twin: &mut Twin,
        tables: &[List<Row>],
        steps: &mut Steps<L>,
    ) -> Result<Tally, NoMemory> {
        try_drawn(alloc, session, twin, tables, self, steps)
    }
}

/// What comes of drawn queries that are prepared and executed over so many sessions, told in words.
fn said_of<L: Ledger>(
    alloc: Global,
    sessions: u32,
    steps: &mut Steps<L>,
) -> Result<String, NoMemory> {
    let tally = try_scenes(alloc, sessions, Some(BUDGET), Tally::none(), steps)?;
    tally.said(alloc)
}

/// Tries drawn queries over so many sessions, and prints what came of them and what differed.
pub fn try_plans<L: Ledger>(
    rt: &HostRuntime,
    sessions: u32,
    steps: &mut Steps<L>,
) -> io::Result<()> {
    let said = said_of(rt.alloc(), sessions, steps).map_err(out_of_memory)?;
    println!(rt; "{said}")
}
