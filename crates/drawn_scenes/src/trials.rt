// What is tried over sessions with drawn scenes.
use crate::statements::fill_scene;
use beas_core::{Limits, List, NoMemory, Row, Steps};
use drawn_tables::Twin;
use session::Session;
use std::alloc::Global;
use std::sync::ledger::Ledger;

/// What came of the sessions that were tried.
pub trait Trial: Copy {
    /// This with what comes of one session more, which has the scene that a twin drew and tables with these rows.
    fn with_session<L: Ledger>(
        self,
        alloc: Global,
        session: &mut Session,
        twin: &mut Twin,
        tables: &[List<Row>],
        steps: &mut Steps<L>,
    ) -> Result<Self, NoMemory>;
}

/// Tries a session without tables, which gets the scene that a seed gives.
fn with_scene<T: Trial, L: Ledger>(
    alloc: Global,
    session: &mut Session,
    seed: u64,
    before: T,
    steps: &mut Steps<L>,
) -> Result<T, NoMemory> {
    let mut twin = Twin::new(alloc, seed);
    let tables = fill_scene(alloc, session, &mut twin, steps)?;
    before.with_session(alloc, session, &mut twin, &tables, steps)
}

/// The same by a session that is made for it.
fn with_seed<T: Trial, L: Ledger>(
    alloc: Global,
    budget: Option<u64>,
    seed: u64,
    before: T,
    steps: &mut Steps<L>,
) -> Result<T, NoMemory> {
    let mut session = Session::new(alloc, Limits::standard(), budget, false);
    let after = with_scene(alloc, &mut session, seed, before, steps);
    session.discard();
    after
}

/// Tries so many sessions with this budget, whose seeds are the numbers from 0 on. `none` is what came of no session.
pub fn try_scenes<T: Trial, L: Ledger>(
    alloc: Global,
    sessions: u32,
    budget: Option<u64>,
    none: T,
    steps: &mut Steps<L>,
) -> Result<T, NoMemory> {
    let mut found = none;
    for seed in 0..sessions {
        found = with_seed(alloc, budget, u64::from(seed), found, steps)?;
    }
    Ok(found)
}
