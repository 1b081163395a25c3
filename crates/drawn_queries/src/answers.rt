// What is announced and answered of a query by the reference programs.
ghost use Rattle.std.specs.Prelude.{IfOk};
ghost use Rattle.beas_core.specs.Shapes.{QueryIsWellFormed};

use crate::coverage::is_agreed;
use beas_core::{Block, Fail, List, Name, NoMemory, NotCovered, Query, Refusal, Row, Steps, Text};
use catalogue::Catalogue;
use drawn_scenes::{bound_query, column_name, refusal_of_block};
use full_meaning::evaluate;
use normal_form::blocks;
use reference_coverage::BlockPlans;
use reference_evaluation::{
    GuidedBlocks, Planned, PlansOnTables, QueryPlans, full_of, plan_query, run_of,
};
use report::Report;
use std::alloc::Global;
use std::sync::ledger::Ledger;
use update_guard::Guarded;

/// A session's tables and constraints, and its rows as plain tables and in a plain store.
#[derive(Clone, Copy)]
pub struct Scene<'a> {
    pub catalogue: &'a Catalogue,
    pub plain: &'a Guarded,
    pub tables: &'a [List<Row>],
}

/// What is to be reported of a query, and what its guided blocks find.
#[derive(Drop)]
pub struct Wanted {
    pub report: Report,
    pub guided: GuidedBlocks,
}

/// The report of a refusal.
fn refused(why: Refusal) -> Wanted {
    Wanted {
        report: Report::Refused { why },
        guided: GuidedBlocks::none(),
    }
}

/// The report of a text that spells no query.
fn failed(why: Fail) -> Result<Wanted, NoMemory> {
    match why {
        Fail::Refused(why) => Ok(refused(why)),
        Fail::NoMemory => Err(NoMemory),
    }
}

/// The names of a block's output.
fn header_of(alloc: Global, block: &Block) -> Result<List<Name>, NoMemory> {
    let mut header = List::new(alloc);
    for place in block.output.as_slice() {
        if let Some(name) = Name::of(alloc, column_name(place.column.0.min(9) as u8))? {
            header.push(name)?;
        }
    }
    Ok(header)
}

/// The names of the output of a query's first block.
fn first_header(alloc: Global, query: &Query) -> Result<List<Name>, NoMemory> {
    match blocks(alloc, query)?.as_slice().first() {
        Some(block) => header_of(alloc, block),
        None => Ok(List::new(alloc)),
    }
}

/// Whether the program over a plain store gives these rows for a query.
fn is_answer<L: Ledger>(
    alloc: Global,
    plain: &Guarded,
    query: &Query,
    rows: &List<Row>,
    steps: &mut Steps<L>,
) -> Result<bool, NoMemory> {
    let stored = evaluate(alloc, plain, query, steps)?;
    Ok(stored == *rows)
}

/// What a run counts.
#[derive(Clone, Copy)]
struct Counts {
    reads: u128,
    guided: GuidedBlocks,
}

/// What the run of a query by plans counts, where it answers these rows.
fn counts_of(
    alloc: Global,
    over: &PlansOnTables,
    query: &Query,
    rows: &List<Row>,
) -> Result<Option<Counts>, NoMemory> {
    match run_of(alloc, over, query)? {
        Some(run) if run.answer.rows == *rows => Ok(Some(Counts {
            reads: run.answer.reads,
            guided: run.guided,
        })),
        _ => Ok(None),
    }
}

/// The same over a scene, where the program over a plain store gives these rows too.
fn counts_over<L: Ledger>(
    alloc: Global,
    scene: Scene<'_>,
    query: &Query,
    plans: &QueryPlans,
    rows: &List<Row>,
    steps: &mut Steps<L>,
) -> Result<Option<Counts>, NoMemory> {
    if !is_answer(alloc, scene.plain, query, rows, steps)? {
        return Ok(None);
    }
    let plans = BlockPlans {
        accesses: scene.catalogue.accesses().as_slice(),
        guided: plans.guided.as_slice(),
        derivations: plans.derivations.as_slice(),
    };
    let over = PlansOnTables {
        tables: scene.tables,
        plans,
    };
    counts_of(alloc, &over, query, rows)
}

/// The report of an answer.
fn answered(
    alloc: Global,
    query: &Query,
    bound: u128,
    rows: List<Row>,
    counts: Counts,
) -> Result<Wanted, NoMemory> {
    let header = first_header(alloc, query)?;
    Ok(Wanted {
        report: Report::Answered {
            bound,
            plan: Text::new(alloc),
            header,
            rows,
            reads: counts.reads,
        },
        guided: counts.guided,
    })
}

/// What is to be reported of a query with these plans and this number: its full answer, which both programs that read
/// all rows have to give, and the run by the plans.
fn wanted_answer<L: Ledger>(
    alloc: Global,
    scene: Scene<'_>,
    query: &Query,
    plans: &QueryPlans,
    bound: u128,
    steps: &mut Steps<L>,
) -> Result<Wanted, NoMemory> {
    let rows = full_of(alloc, scene.tables, query)?;
    match counts_over(alloc, scene, query, plans, &rows, steps)? {
        Some(counts) => answered(alloc, query, bound, rows, counts),
        None => Ok(refused(Refusal::Syntax)),
    }
}

/// What is to be reported of a covered query within a budget.
fn wanted_by<L: Ledger>(
    alloc: Global,
    scene: Scene<'_>,
    query: &Query,
    plans: &QueryPlans,
    budget: u64,
    steps: &mut Steps<L>,
) -> Result<Wanted, NoMemory> {
    match plans.bound {
        None => Ok(refused(Refusal::TooLarge)),
        Some(bound) if bound > u128::from(budget) => {
            Ok(refused(Refusal::OverBudget { bound, budget }))
        }
        Some(bound) => wanted_answer(alloc, scene, query, plans, bound, steps),
    }
}

/// What is to be reported of a query whose block with this number isn't covered.
fn uncovered(alloc: Global, block: usize, why: NotCovered) -> Result<Wanted, NoMemory> {
    Ok(refused(refusal_of_block(alloc, block, why)?))
}

/// What is to be reported of a query that is planned so.
fn wanted_where<L: Ledger>(
    alloc: Global,
    scene: Scene<'_>,
    query: &Query,
    planned: &Planned,
    budget: u64,
    steps: &mut Steps<L>,
) -> Result<Wanted, NoMemory>
    requires { QueryIsWellFormed query.now }
{
    if !is_agreed(alloc, scene.catalogue.accesses(), query, planned)? {
        return Ok(refused(Refusal::Syntax));
    }
    match planned {
        Planned::Covered(plans) => wanted_by(alloc, scene, query, plans, budget, steps),
        Planned::Uncovered(found) => uncovered(alloc, found.block, found.why),
        Planned::TooWide => Ok(refused(Refusal::Syntax)),
    }
}

/// What is to be reported of a query.
fn wanted_of_query<L: Ledger>(
    alloc: Global,
    scene: Scene<'_>,
    query: &Query,
    budget: u64,
    steps: &mut Steps<L>,
) -> Result<Wanted, NoMemory>
    requires { QueryIsWellFormed query.now }
{
    let planned = plan_query(alloc, scene.catalogue.accesses().as_slice(), query)?;
    wanted_where(alloc, scene, query, &planned, budget, steps)
}

/// What is to be reported of a query within a budget by the reference programs. A query that they don't agree on is
/// refused as 1.
pub fn wanted_of<L: Ledger>(
    alloc: Global,
    scene: Scene<'_>,
    spelled: &str,
    budget: u64,
    steps: &mut Steps<L>,
) -> Result<Wanted, NoMemory> {
    match bound_query(alloc, scene.catalogue, spelled) {
        Ok(query) => wanted_of_query(alloc, scene, &query, budget, steps),
        Err(why) => failed(why),
    }
}
