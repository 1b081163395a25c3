// What comes of a prepared query, compared with what the reference programs give for its plans.
ghost use Rattle.beas_core.specs.Fits.{Fits};
ghost use Rattle.catalogue.specs.Database.{rows_at};
ghost use Rattle.session.specs.Stores.{database_in};

use beas_core::{Answer, List, NoMemory, Prepared, Row, Steps};
use plan_executor::execute;
use reference_coverage::BlockPlans;
use reference_evaluation::{GuidedBlocks, PlansOnTables, Run, full_of, run_of};
use session::Store;
use std::alloc::Global;
use std::sync::ledger::Ledger;

/// What came of a prepared query: whether it is as by the reference programs, and what its guided blocks found.
#[derive(Clone, Copy)]
pub struct Outcome {
    pub is_wanted: bool,
    pub guided: GuidedBlocks,
}

/// What the reference programs give for a prepared query over tables.
fn wanted_run(
    alloc: Global,
    guarded: &Store,
    tables: &[List<Row>],
    prepared: &Prepared,
) -> Result<Option<Run>, NoMemory> {
    let plans = BlockPlans {
        accesses: guarded.catalogue.accesses().as_slice(),
        guided: prepared.guided.as_slice(),
        derivations: prepared.derivations.as_slice(),
    };
    run_of(alloc, &PlansOnTables { tables, plans }, &prepared.query)
}

/// What came of a prepared query with this answer, where the reference programs give the other run.
fn outcome_of_run(
    alloc: Global,
    tables: &[List<Row>],
    prepared: &Prepared,
    answer: &Answer,
    run: &Run,
) -> Result<Outcome, NoMemory> {
    let full = full_of(alloc, tables, &prepared.query)?;
    let are_rows = answer.rows == full && answer.rows == run.answer.rows;
    let is_counted = answer.reads == run.answer.reads && answer.reads <= prepared.bound;
    Ok(Outcome {
        is_wanted: are_rows && is_counted && run.bound == Some(prepared.bound),
        guided: run.guided,
    })
}

/// What came of a prepared query with this answer.
fn outcome_of_answer(
    alloc: Global,
    guarded: &Store,
    tables: &[List<Row>],
    prepared: &Prepared,
    answer: &Answer,
) -> Result<Outcome, NoMemory> {
    match wanted_run(alloc, guarded, tables, prepared)? {
        Some(run) => outcome_of_run(alloc, tables, prepared, answer, &run),
        None => Ok(Outcome {
            is_wanted: false,
            guided: GuidedBlocks::none(),
        }),
    }
}

/// Executes a prepared query. Wanted are the rows, the reads and the number that the reference programs give, and rows
/// that are the full answer; and no more reads than announced.
pub fn outcome_of<L: Ledger>(
    alloc: Global,
    guarded: &Store,
    tables: &[List<Row>],
    prepared: &Prepared,
    steps: &mut Steps<L>,
) -> Result<Outcome, NoMemory>
    requires { Fits guarded.now.catalogue.accesses (rows_at (database_in guarded.now)) prepared.now }
{
    let answer = execute(alloc, guarded, prepared, steps)?;
    outcome_of_answer(alloc, guarded, tables, prepared, &answer)
}
