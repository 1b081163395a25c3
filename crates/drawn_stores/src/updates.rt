// Drawn updates, carried out on a session, on a store of plain indexes and on a plain list of rows.
use crate::indexes::{Found, differing_groups};
use crate::stores::reports_by;
use beas_core::{Limits, NoMemory, Steps};
use drawn_scenes::{Batch, Plain, Shape, Twin, creations, out_of_memory, reports_of};
use session::Session;
use std::alloc::Global;
use std::io;
use std::sync::ledger::Ledger;
use update_guard::Guarded;

/// After so many updates each group of each index is asked for.
const BATCH: u32 = 25;

/// What came of updates.
#[derive(Clone, Copy)]
struct Tally {
    refused: u32,
    asked: u32,
    differing: u32,
}

impl Tally {
    fn none() -> Tally {
        Tally {
            refused: 0,
            asked: 0,
            differing: 0,
        }
    }

    fn with(&self, refused: u32, found: Found) -> Tally {
        Tally {
            refused: self.refused.saturating_add(refused),
            asked: self.asked.saturating_add(found.asked),
            differing: self.differing.saturating_add(found.differing),
        }
    }
}

/// Has a session carry out a batch. True where what it reports isn't what is wanted.
fn session_differs<L: Ledger>(
    alloc: Global,
    session: &mut Session,
    batch: &Batch,
    steps: &mut Steps<L>,
) -> Result<bool, NoMemory> {
    let said = reports_of(alloc, session, &batch.statements, steps)?;
    Ok(said.as_str() != batch.wanted.as_str())
}

/// The same of a store of plain indexes.
fn plain_differs<L: Ledger>(
    alloc: Global,
    plain: &mut Guarded,
    batch: &Batch,
    steps: &mut Steps<L>,
) -> Result<bool, NoMemory> {
    let said = reports_by(alloc, plain, &batch.statements, steps)?;
    Ok(said.as_str() != batch.wanted.as_str())
}

/// Has a session carry out a batch, and asks each of its indexes for each group.
fn try_session<L: Ledger>(
    alloc: Global,
    session: &mut Session,
    batch: &Batch,
    rows: &Plain,
    steps: &mut Steps<L>,
) -> Result<Found, NoMemory> {
    let found = Found {
        asked: 0,
        differing: u32::from(session_differs(alloc, session, batch, steps)?),
    };
    let store = &session.guarded;
    differing_groups(alloc, &store.catalogue, store, rows, found, steps)
}

/// Has a store of plain indexes carry out a batch, and asks each of its indexes for each group.
fn try_plain<L: Ledger>(
    alloc: Global,
    plain: &mut Guarded,
    batch: &Batch,
    rows: &Plain,
    before: Found,
    steps: &mut Steps<L>,
) -> Result<Found, NoMemory> {
    let is_other = plain_differs(alloc, plain, batch, steps)?;
    let found = Found {
        asked: before.asked,
        differing: before.differing.saturating_add(u32::from(is_other)),
    };
    let store = &*plain;
    differing_groups(alloc, &store.catalogue, store, rows, found, steps)
}

/// Has both stores carry out a batch.
fn try_both<L: Ledger>(
    alloc: Global,
    session: &mut Session,
    plain: &mut Guarded,
    batch: &Batch,
    rows: &Plain,
    steps: &mut Steps<L>,
) -> Result<Found, NoMemory> {
    let found = try_session(alloc, session, batch, rows, steps)?;
    try_plain(alloc, plain, batch, rows, found, steps)
}

/// Carries out a batch of drawn updates on both stores.
fn try_batch<L: Ledger>(
    alloc: Global,
    session: &mut Session,
    plain: &mut Guarded,
    twin: &mut Twin,
    steps: &mut Steps<L>,
) -> Result<(u32, Found), NoMemory> {
    let batch = twin.batch(alloc, BATCH)?;
    let found = try_both(alloc, session, plain, &batch, &twin.plain, steps)?;
    Ok((batch.refused, found))
}

/// Has both stores create tables of some shape.
fn create_tables<L: Ledger>(
    alloc: Global,
    session: &mut Session,
    plain: &mut Guarded,
    shape: Shape,
    steps: &mut Steps<L>,
) -> Result<(), NoMemory> {
    let statements = creations(alloc, shape)?;
    reports_of(alloc, session, &statements, steps)?;
    reports_by(alloc, plain, &statements, steps)?;
    Ok(())
}

/// Carries out so many updates that a twin draws on both stores.
fn try_batches<L: Ledger>(
    alloc: Global,
    session: &mut Session,
    plain: &mut Guarded,
    twin: &mut Twin,
    count: u32,
    steps: &mut Steps<L>,
) -> Result<Tally, NoMemory> {
    let mut tally = Tally::none();
    for _ in 0..count / BATCH {
        let (refused, found) = try_batch(alloc, session, plain, twin, steps)?;
        tally = tally.with(refused, found);
    }
    Ok(tally)
}

/// Carries out so many drawn updates of tables of some shape on both stores, which have no tables yet.
fn try_drawn<L: Ledger>(
    alloc: Global,
    session: &mut Session,
    plain: &mut Guarded,
    count: u32,
    shape: Shape,
    steps: &mut Steps<L>,
) -> Result<Tally, NoMemory> {
    create_tables(alloc, session, plain, shape, steps)?;
    let mut twin = Twin::shaped(alloc, 1, shape);
    try_batches(alloc, session, plain, &mut twin, count, steps)
}

/// The same by a session and a store that are made for it.
fn try_stores<L: Ledger>(
    alloc: Global,
    count: u32,
    shape: Shape,
    steps: &mut Steps<L>,
) -> Result<Tally, NoMemory> {
    let mut session = Session::new(alloc, Limits::standard(), None, false);
    let mut plain = Guarded::new(alloc);
    let tally = try_drawn(alloc, &mut session, &mut plain, count, shape, steps);
    session.discard();
    plain.discard();
    tally
}

/// Carries out so many drawn updates of tables of some shape, and says what came of them and what differed.
fn try_shape<L: Ledger>(
    alloc: Global,
    count: u32,
    shape: Shape,
    steps: &mut Steps<L>,
) -> Result<String, NoMemory> {
    let Tally {
        refused,
        asked,
        differing,
    } = try_stores(alloc, count, shape, steps)?;
    Ok(format!(in alloc;
        "{count} updates, {refused} refused, {asked} groups asked for, {differing} differences"
    )?)
}

/// The same of narrow tables and then of wide ones with long keys, a line each.
fn said_of<L: Ledger>(alloc: Global, count: u32, steps: &mut Steps<L>) -> Result<String, NoMemory> {
    let mut said = try_shape(alloc, count, Shape::narrow(), steps)?;
    said.push('\n')?;
    said.push_str(try_shape(alloc, count, Shape::wide(), steps)?.as_str())?;
    Ok(said)
}

/// Carries out so many drawn updates of narrow tables, and as many of wide ones with long keys, and prints what came of
/// them and what differed.
pub fn try_updates<L: Ledger>(
    rt: &HostRuntime,
    count: u32,
    steps: &mut Steps<L>,
) -> io::Result<()> {
    let said = said_of(rt.alloc(), count, steps).map_err(out_of_memory)?;
    println!(rt; "{said}")
}
