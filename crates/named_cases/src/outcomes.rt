// What comes of a query by calls, compared with what the reference programs give.
ghost use Rattle.std.specs.Prelude.{◌<◌, ◌^◌, IfOk, length};
ghost use Rattle.beas_core.specs.Fits.{Fits};
ghost use Rattle.beas_core.specs.Shapes.{QueryIsWellFormed};
ghost use Rattle.beas_core.specs.Trees.{blocks_of};
ghost use Rattle.catalogue.specs.Database.{rows_at};
ghost use Rattle.catalogue.specs.Queries.{QueryIsOver};
ghost use Rattle.session.specs.Stores.{database_in};

use crate::shapes::is_right;
use beas_core::{Answer, Fail, List, NoMemory, Prepared, Query, Refusal, Row, Steps};
use plan_builder::prepare;
use plan_executor::execute;
use reference_coverage::BlockPlans;
use reference_evaluation::{Planned, PlansOnTables, QueryPlans, Run, full_of, plan_query, run_of};
use session::Store;
use std::alloc::Global;
use std::sync::ledger::Ledger;

/// What came of a query.
#[derive(Clone, Copy)]
pub enum Outcome {
    /// Its shape isn't the one that the layers ask for, so it wasn't prepared.
    Misshapen,
    /// Refused, since a block isn't covered.
    Uncovered,
    /// Refused, since the number passes 2^128 - 1.
    TooLarge,
    /// Its number is above the budget, so it wasn't executed.
    Above,
    /// Answered with so many rows.
    Answered {
        bound: u128,
        reads: u128,
        rows: usize,
    },
    /// Otherwise than by the reference programs.
    Differs,
}

/// A count, one more where this is another.
pub fn more(count: u32, is_more: bool) -> u32 {
    count.saturating_add(u32::from(is_more))
}

/// A query as it is prepared over a store, which it fits.
fn prepared_over(alloc: Global, guarded: &Store, query: Query) -> Result<Prepared, Fail>
    requires well_formed { QueryIsWellFormed query }
    requires over { QueryIsOver guarded.now.catalogue query }
    requires few { length (blocks_of query) < 2 ^ 32 }
    ensures { IfOk result (Fits guarded.now.catalogue.accesses (rows_at (database_in guarded.now))) }
{
    prepare(alloc, &guarded.catalogue, query)
}

/// What the reference programs give for a query by these plans over tables.
fn wanted_run(
    alloc: Global,
    guarded: &Store,
    tables: &[List<Row>],
    query: &Query,
    plans: &QueryPlans,
) -> Result<Option<Run>, NoMemory> {
    let plans = BlockPlans {
        accesses: guarded.catalogue.accesses().as_slice(),
        guided: plans.guided.as_slice(),
        derivations: plans.derivations.as_slice(),
    };
    run_of(alloc, &PlansOnTables { tables, plans }, query)
}

/// What comes of a query with this answer, where the reference programs give the other one.
fn outcome_of_runs(
    alloc: Global,
    tables: &[List<Row>],
    prepared: &Prepared,
    answer: &Answer,
    wanted: &Answer,
) -> Result<Outcome, NoMemory> {
    let rows = full_of(alloc, tables, &prepared.query)?;
    let are_rows = answer.rows == rows && wanted.rows == rows;
    if are_rows && answer.reads == wanted.reads && answer.reads <= prepared.bound {
        Ok(Outcome::Answered {
            bound: prepared.bound,
            reads: answer.reads,
            rows: rows.len(),
        })
    } else {
        Ok(Outcome::Differs)
    }
}

/// What comes of a query that was prepared, and that the reference programs plan so.
fn outcome_by_plans<L: Ledger>(
    alloc: Global,
    guarded: &Store,
    tables: &[List<Row>],
    prepared: &Prepared,
    plans: &QueryPlans,
    steps: &mut Steps<L>,
) -> Result<Outcome, NoMemory>
    requires { Fits guarded.now.catalogue.accesses (rows_at (database_in guarded.now)) prepared.now }
{
    let answer = execute(alloc, guarded, prepared, steps)?;
    match wanted_run(alloc, guarded, tables, &prepared.query, plans)? {
        Some(run) => outcome_of_runs(alloc, tables, prepared, &answer, &run.answer),
        None => Ok(Outcome::Differs),
    }
}

/// What comes of a query that was prepared, and of which the reference programs say this.
fn outcome_within<L: Ledger>(
    alloc: Global,
    guarded: &Store,
    tables: &[List<Row>],
    prepared: &Prepared,
    wanted: &Planned,
    budget: u128,
    steps: &mut Steps<L>,
) -> Result<Outcome, NoMemory>
    requires { Fits guarded.now.catalogue.accesses (rows_at (database_in guarded.now)) prepared.now }
{
    let Planned::Covered(plans) = wanted else {
        return Ok(Outcome::Differs);
    };
    if plans.bound != Some(prepared.bound) || prepared.guided != plans.guided {
        return Ok(Outcome::Differs);
    }
    if prepared.bound > budget {
        return Ok(Outcome::Above);
    }
    outcome_by_plans(alloc, guarded, tables, prepared, plans, steps)
}

/// What comes of a query that was refused for this reason, and of which the reference programs say this.
fn outcome_of_refusal(why: &Refusal, wanted: &Planned) -> Outcome {
    match (why, wanted) {
        (Refusal::NotCovered { .. }, Planned::Uncovered(_)) => Outcome::Uncovered,
        (Refusal::TooLarge, Planned::Covered(plans)) if plans.bound.is_none() => Outcome::TooLarge,
        _ => Outcome::Differs,
    }
}

/// What comes of a query that couldn't be prepared, and of which the reference programs say this.
fn outcome_of_failure(why: &Fail, wanted: &Planned) -> Result<Outcome, NoMemory> {
    match why {
        Fail::Refused(why) => Ok(outcome_of_refusal(why, wanted)),
        Fail::NoMemory => Err(NoMemory),
    }
}

/// What comes of a query of the right shape, of which the reference programs say this.
fn outcome_where<L: Ledger>(
    alloc: Global,
    guarded: &Store,
    tables: &[List<Row>],
    query: Query,
    wanted: &Planned,
    budget: u128,
    steps: &mut Steps<L>,
) -> Result<Outcome, NoMemory>
    requires well_formed { QueryIsWellFormed query }
    requires over { QueryIsOver guarded.now.catalogue query }
    requires few { length (blocks_of query) < 2 ^ 32 }
{
    match prepared_over(alloc, guarded, query) {
        Ok(prepared) => {
            let outcome = outcome_within(alloc, guarded, tables, &prepared, wanted, budget, steps);
            drop(prepared);
            outcome
        }
        Err(why) => {
            let outcome = outcome_of_failure(&why, wanted);
            drop(why);
            outcome
        }
    }
}

/// What comes of a query over a store whose tables have these rows. Above the budget it isn't executed.
pub fn outcome_of<L: Ledger>(
    alloc: Global,
    guarded: &Store,
    tables: &[List<Row>],
    query: Query,
    budget: u128,
    steps: &mut Steps<L>,
) -> Result<Outcome, NoMemory> {
    if !is_right(alloc, guarded, &query)? {
        return Ok(Outcome::Misshapen);
    }
    let wanted = plan_query(alloc, guarded.catalogue.accesses().as_slice(), &query)?;
    outcome_where(alloc, guarded, tables, query, &wanted, budget, steps)
}
