// Drawn queries by cursors.
use crate::named::try_named;
use crate::turns::{Turned, turned_query};
use beas_core::{Fail, List, NoMemory, Row, Steps};
use drawn_scenes::{Draws, Trial, Twin, draw_query, out_of_memory, try_scenes};
use session::Session;
use std::alloc::Global;
use std::io;
use std::sync::ledger::Ledger;

/// So many queries are drawn for one session.
const QUERIES: u32 = 25;

const BUDGET: u64 = 1000;

/// How many queries were answered and how many refused, how many probes the cursors made, and how many queries they
/// answered otherwise than the executor.
#[derive(Clone, Copy)]
struct Tally {
    answered: u32,
    refused: u32,
    probes: u32,
    differing: u32,
}

impl Tally {
    fn with(self, turned: Turned) -> Tally {
        Tally {
            answered: self.answered.saturating_add(1),
            refused: self.refused,
            probes: self.probes.saturating_add(turned.probes),
            differing: self.differing.saturating_add(u32::from(!turned.agrees)),
        }
    }

    fn with_refused(self) -> Tally {
        Tally {
            refused: self.refused.saturating_add(1),
            ..self
        }
    }

    /// This with what came of a query more.
    fn with_outcome(self, outcome: &Result<Turned, Fail>) -> Result<Tally, NoMemory> {
        match outcome {
            Ok(turned) => Ok(self.with(*turned)),
            Err(Fail::Refused(_)) => Ok(self.with_refused()),
            Err(Fail::NoMemory) => Err(NoMemory),
        }
    }
}

/// Tries a query over a session.
fn try_spelled<L: Ledger>(
    alloc: Global,
    session: &Session,
    spelled: &str,
    before: Tally,
    steps: &mut Steps<L>,
) -> Result<Tally, NoMemory> {
    let outcome = turned_query(alloc, session, spelled, steps);
    let tally = before.with_outcome(&outcome);
    drop(outcome);
    tally
}

/// Tries a drawn query over a session.
fn try_query<L: Ledger>(
    alloc: Global,
    session: &Session,
    draws: &mut Draws,
    before: Tally,
    steps: &mut Steps<L>,
) -> Result<Tally, NoMemory> {
    let query = draw_query(alloc, draws)?;
    try_spelled(alloc, session, query.as_str(), before, steps)
}

/// Tries drawn queries over a session.
fn try_queries<L: Ledger>(
    alloc: Global,
    session: &Session,
    draws: &mut Draws,
    before: Tally,
    steps: &mut Steps<L>,
) -> Result<Tally, NoMemory> {
    let mut tally = before;
    for _ in 0..QUERIES {
        tally = try_query(alloc, session, draws, tally, steps)?;
    }
    Ok(tally)
}

impl Trial for Tally {
    fn with_session<L: Ledger>(
        self,
        alloc: Global,
        session: &mut Session,
        twin: &mut Twin,
        _tables: &[List<Row>],
        steps: &mut Steps<L>,
    ) -> Result<Tally, NoMemory> {
        try_queries(alloc, session, &mut twin.draws, self, steps)
    }
}

/// What comes of drawn queries over so many sessions, told in words.
fn said_of<L: Ledger>(
    alloc: Global,
    sessions: u32,
    steps: &mut Steps<L>,
) -> Result<String, NoMemory> {
    let none = Tally {
        answered: 0,
        refused: 0,
        probes: 0,
        differing: 0,
    };
    let Tally {
        answered,
        refused,
        probes,
        differing,
    } = try_scenes(alloc, sessions, Some(BUDGET), none, steps)?;
    Ok(format!(in alloc;
        "{sessions} sessions with {QUERIES} queries each: {answered} answered after {probes} probes, {refused} refused, {differing} differences"
    )?)
}

/// Tries drawn queries over so many sessions and then the named ones of a folder, and prints what came of them and what
/// differed.
pub fn try_cursors<L: Ledger>(
    rt: &HostRuntime,
    folder: &str,
    sessions: u32,
    steps: &mut Steps<L>,
) -> io::Result<()> {
    let said = said_of(rt.alloc(), sessions, steps).map_err(out_of_memory)?;
    println!(rt; "{said}")?;
    try_named(rt, folder, steps)
}
