// Drawn queries over small drawn tables.
use crate::answers::{Scene, Wanted, wanted_of};
use beas_core::{List, NoMemory, Row, Steps, Text};
use drawn_scenes::{Draws, Trial, Twin, draw_query, out_of_memory, reports, try_scenes};
use full_meaning::plain_store;
use reference_evaluation::GuidedBlocks;
use report::{Report, text};
use session::{Session, Store};
use std::alloc::Global;
use std::io;
use std::sync::ledger::Ledger;
use update_guard::Guarded;

/// So many queries are drawn for one session.
const QUERIES: u32 = 25;

const BUDGET: u64 = 1000;

/// How many queries are answered, not covered and above the budget; what the guided blocks find of those that are
/// answered; and how many scripts of queries weren't reported so.
#[derive(Clone, Copy)]
struct Tally {
    answered: u32,
    open: u32,
    above: u32,
    guided: GuidedBlocks,
    differing: u32,
}

/// The number of a report's refusal, and 0 where it is none.
fn number_of(report: &Report) -> u32 {
    match report {
        Report::Refused { why } => why.number(),
        _ => 0,
    }
}

impl Tally {
    fn with(self, wanted: &Wanted) -> Tally {
        let number = number_of(&wanted.report);
        Tally {
            answered: self.answered.saturating_add(u32::from(number == 0)),
            open: self.open.saturating_add(u32::from(number == 19)),
            above: self.above.saturating_add(u32::from(number == 21)),
            guided: self.guided.with(wanted.guided),
            differing: self
                .differing
                .saturating_add(u32::from(!matches!(number, 0 | 19 | 21))),
        }
    }
}

impl Tally {
    fn said(self, alloc: Global, sessions: u32) -> Result<String, NoMemory> {
        let Tally {
            answered,
            open,
            above,
            differing,
            ..
        } = self;
        let GuidedBlocks {
            guided,
            finding,
            ..
        } = self.guided;
        Ok(format!(in alloc;
            "{sessions} sessions with {QUERIES} queries each: {answered} answered, {open} not covered, {above} above the budget, {guided} guided blocks of which {finding} find something, {differing} differences"
        )?)
    }
}

/// Queries as a script, with what is to be reported of them.
#[derive(Drop)]
struct Queries {
    script: Text,
    wanted: Text,
    tally: Tally,
}

impl Queries {
    /// No queries, of which this is to be reported.
    fn none(alloc: Global, wanted: Text, tally: Tally) -> Queries {
        Queries {
            script: Text::new(alloc),
            wanted,
            tally,
        }
    }

    /// Adds the report of a query that is the statement with this number.
    fn add_wanted(&mut self, alloc: Global, number: u32, wanted: &Wanted) -> Result<(), NoMemory> {
        self.tally = self.tally.with(wanted);
        let report = text(alloc, number, &wanted.report)?;
        self.wanted.push_str(report.as_str())
    }

    /// Adds a query as the statement with this number.
    fn add<L: Ledger>(
        &mut self,
        alloc: Global,
        number: u32,
        scene: Scene<'_>,
        query: &str,
        steps: &mut Steps<L>,
    ) -> Result<(), NoMemory> {
        self.script.push_str(query)?;
        self.script.push_str(";")?;
        let wanted = wanted_of(alloc, scene, query, BUDGET, steps)?;
        let added = self.add_wanted(alloc, number, &wanted);
        drop(wanted);
        added
    }

    /// Adds a drawn query.
    fn draw<L: Ledger>(
        &mut self,
        alloc: Global,
        number: u32,
        scene: Scene<'_>,
        draws: &mut Draws,
        steps: &mut Steps<L>,
    ) -> Result<(), NoMemory> {
        let query = draw_query(alloc, draws)?;
        self.add(alloc, number, scene, query.as_str(), steps)
    }
}

/// Drawn queries over a scene.
fn draw_queries<L: Ledger>(
    alloc: Global,
    scene: Scene<'_>,
    draws: &mut Draws,
    tally: Tally,
    steps: &mut Steps<L>,
) -> Result<Queries, NoMemory> {
    let mut queries = Queries::none(alloc, Text::new(alloc), tally);
    for nth in 1..=QUERIES {
        queries.draw(alloc, nth, scene, draws, steps)?;
    }
    Ok(queries)
}

/// Whether a session reports of queries what is wanted.
fn are_answered<L: Ledger>(
    alloc: Global,
    session: &mut Session,
    queries: &Queries,
    steps: &mut Steps<L>,
) -> Result<bool, NoMemory> {
    let said = reports(alloc, session, queries.script.as_str(), steps)?;
    Ok(said.as_str() == queries.wanted.as_str())
}

/// Drawn queries over a store and a plain one with the same rows.
fn queries_beside<L: Ledger>(
    alloc: Global,
    store: &Store,
    plain: &Guarded,
    draws: &mut Draws,
    tables: &[List<Row>],
    tally: Tally,
    steps: &mut Steps<L>,
) -> Result<Queries, NoMemory> {
    let scene = Scene {
        catalogue: &store.catalogue,
        plain,
        tables,
    };
    draw_queries(alloc, scene, draws, tally, steps)
}

/// No queries, where a store can't be made anew.
fn queries_over_none(alloc: Global, tally: Tally) -> Result<Queries, NoMemory> {
    let wanted = Text::from_str(alloc, "a store that is made anew")?;
    Ok(Queries::none(alloc, wanted, tally))
}

/// Drawn queries over the rows that a session has. Where its store can't be made anew there are none.
fn queries_over<L: Ledger>(
    alloc: Global,
    store: &Store,
    draws: &mut Draws,
    tables: &[List<Row>],
    tally: Tally,
    steps: &mut Steps<L>,
) -> Result<Queries, NoMemory> {
    match plain_store(alloc, &store.catalogue, store.rows.as_slice(), steps)? {
        Some(plain) => {
            let queries = queries_beside(alloc, store, &plain, draws, tables, tally, steps);
            plain.discard();
            queries
        }
        None => queries_over_none(alloc, tally),
    }
}

/// Has drawn queries answered by a session whose tables have these rows.
fn try_drawn<L: Ledger>(
    alloc: Global,
    session: &mut Session,
    draws: &mut Draws,
    tables: &[List<Row>],
    tally: Tally,
    steps: &mut Steps<L>,
) -> Result<Tally, NoMemory> {
    let queries = queries_over(alloc, &session.guarded, draws, tables, tally, steps)?;
    let is_same = are_answered(alloc, session, &queries, steps)?;
    Ok(Tally {
        differing: queries.tally.differing.saturating_add(u32::from(!is_same)),
        ..queries.tally
    })
}

impl Trial for Tally {
    fn with_session<L: Ledger>(
        self,
        alloc: Global,
        session: &mut Session,
        twin: &mut Twin,
        tables: &[List<Row>],
        steps: &mut Steps<L>,
    ) -> Result<Tally, NoMemory> {
        try_drawn(alloc, session, &mut twin.draws, tables, self, steps)
    }
}

/// What comes of drawn queries that so many sessions answer, told in words.
fn said_of<L: Ledger>(
    alloc: Global,
    sessions: u32,
    steps: &mut Steps<L>,
) -> Result<String, NoMemory> {
    let none = Tally {
        answered: 0,
        open: 0,
        above: 0,
        guided: GuidedBlocks::none(),
        differing: 0,
    };
    let tally = try_scenes(alloc, sessions, Some(BUDGET), none, steps)?;
    tally.said(alloc, sessions)
}

/// Has drawn queries answered by so many sessions, and prints what came of them and what differed.
pub fn try_queries<L: Ledger>(
    rt: &HostRuntime,
    sessions: u32,
    steps: &mut Steps<L>,
) -> io::Result<()> {
    let said = said_of(rt.alloc(), sessions, steps).map_err(out_of_memory)?;
    println!(rt; "{said}")
}
