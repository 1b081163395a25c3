// Drawn queries whose outputs lose their columns.
use crate::outcomes::{Outcome, more, outcome_of};
use beas_core::{Fail, List, NoMemory, Query, QueryNode, Row, Steps};
use drawn_scenes::{Trial, Twin, bound_query, draw_query, out_of_memory, try_scenes};
use session::{Session, Store};
use std::alloc::Global;
use std::io;
use std::sync::ledger::Ledger;

/// So many queries are drawn for one session.
const QUERIES: u32 = 10;

/// A query with a greater number isn't executed: the reference programs take long over it.
const BUDGET: u128 = 1000;

/// How many queries came out with a row, without one, and not at all; and how many otherwise than by the reference
/// programs. The numbers of drawn queries fit 128 bits, so one that doesn't counts as a difference.
#[derive(Clone, Copy)]
struct Tally {
    with_row: u32,
    without: u32,
    uncovered: u32,
    above: u32,
    misshapen: u32,
    differing: u32,
}

impl Tally {
    fn with(self, outcome: Outcome) -> Tally {
        let rows = match outcome {
            Outcome::Answered { rows, .. } => Some(rows),
            _ => None,
        };
        let is_uncovered = matches!(outcome, Outcome::Uncovered);
        let is_above = matches!(outcome, Outcome::Above);
        let is_misshapen = matches!(outcome, Outcome::Misshapen);
        let is_answered = rows == Some(0) || rows == Some(1);
        let is_wanted = is_answered || is_uncovered || is_above || is_misshapen;
        Tally {
            with_row: more(self.with_row, rows == Some(1)),
            without: more(self.without, rows == Some(0)),
            uncovered: more(self.uncovered, is_uncovered),
            above: more(self.above, is_above),
            misshapen: more(self.misshapen, is_misshapen),
            differing: more(self.differing, !is_wanted),
        }
    }

    fn line(self, alloc: Global) -> Result<String, NoMemory> {
        let Tally {
            with_row,
            without,
            uncovered,
            above,
            misshapen,
            differing,
        } = self;
        Ok(format!(in alloc;
            "queries without columns: {with_row} with a row, {without} without one, {uncovered} not covered, {above} above {BUDGET} reads, {misshapen} of a wrong shape, {differing} differences"
        )?)
    }
}

/// Takes the columns out of the outputs of all blocks.
fn drop_columns(alloc: Global, query: &mut Query) {
    match &mut query.node {
        QueryNode::Block(block) => block.output = List::new(alloc),
        QueryNode::Union(left, right) => {
            drop_columns(alloc, left);
            drop_columns(alloc, right);
        }
        QueryNode::Except(left, right) => {
            drop_columns(alloc, left);
            drop_columns(alloc, right);
        }
    }
}

/// What comes of a text that can't be bound. Each drawn one can be, so a refusal differs.
fn outcome_where_unbound(why: &Fail) -> Result<Outcome, NoMemory> {
    match why {
        Fail::Refused(_) => Ok(Outcome::Differs),
        Fail::NoMemory => Err(NoMemory),
    }
}

/// What comes of the query that a text spells, without columns.
fn try_query<L: Ledger>(
    alloc: Global,
    guarded: &Store,
    tables: &[List<Row>],
    spelled: &str,
    steps: &mut Steps<L>,
) -> Result<Outcome, NoMemory> {
    match bound_query(alloc, &guarded.catalogue, spelled) {
        Ok(mut query) => {
            drop_columns(alloc, &mut query);
            outcome_of(alloc, guarded, tables, query, BUDGET, steps)
        }
        Err(why) => {
            let outcome = outcome_where_unbound(&why);
            drop(why);
            outcome
        }
    }
}

/// Tries drawn queries over a store with these rows.
fn try_drawn<L: Ledger>(
    alloc: Global,
    guarded: &Store,
    twin: &mut Twin,
    tables: &[List<Row>],
    before: Tally,
    steps: &mut Steps<L>,
) -> Result<Tally, NoMemory> {
    let mut tally = before;
    for _ in 0..QUERIES {
        let query = draw_query(alloc, &mut twin.draws)?;
        tally = tally.with(try_query(alloc, guarded, tables, query.as_str(), steps)?);
    }
    Ok(tally)
}

impl Trial for Tally {
    fn with_session<L: Ledger>(
        self,
        alloc: Global,
        session: &mut Session,
        twin: &mut Twin,
        tables: &[List<Row>],
        steps: &mut Steps<L>,
    ) -> Result<Tally, NoMemory> {
        try_drawn(alloc, &session.guarded, twin, tables, self, steps)
    }
}

/// What comes of drawn queries over so many sessions, told in words.
fn said_of<L: Ledger>(
    alloc: Global,
    sessions: u32,
    steps: &mut Steps<L>,
) -> Result<String, NoMemory> {
    let none = Tally {
        with_row: 0,
        without: 0,
        uncovered: 0,
        above: 0,
        misshapen: 0,
        differing: 0,
    };
    let tally = try_scenes(alloc, sessions, None, none, steps)?;
    tally.line(alloc)
}

/// Tries drawn queries over so many sessions, and prints what came of them and what differed.
pub fn try_columnless<L: Ledger>(
    rt: &HostRuntime,
    sessions: u32,
    steps: &mut Steps<L>,
) -> io::Result<()> {
    let said = said_of(rt.alloc(), sessions, steps).map_err(out_of_memory)?;
    println!(rt; "{said}")
}
