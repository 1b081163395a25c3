// What the reference programs give for a case, as text.
ghost use Rattle.std.specs.Prelude.{◌≡◌, length, All};
ghost use Rattle.beas_core.specs.Trees.{blocks_of};
ghost use Rattle.reference_coverage.specs.Tasks.{BlocksHaveFewPlaces, HasFewAtoms};

use crate::blocks::show_block;
use crate::starts::start_sizes;
use beas_core::{List, Query, Row, Value};
use named_blocks::{NamedCase, Wrong};
use reference_coverage::{
    BlockPlans, Task, block_tasks, blocks_have_few_places, first_uncovered, guided_flags, plans_of,
    query_bound, query_size, steps_of,
};
use reference_evaluation::{
    BlockProbe, PlansOnTables, full_of, query_answers, query_probes, query_reads,
};
use std::alloc::Global;
use std::fmt::Write;

/// All that is printed of a case.
pub fn show_case(alloc: Global, case: &NamedCase) -> Result<String, Wrong> {
    let mut shown = format!(in alloc; "case {}\n", case.name)?;
    show_built(alloc, &mut shown, case)?;
    Ok(shown)
}

// What is printed of a case's query, once it is built.
fn show_built(alloc: Global, shown: &mut String, case: &NamedCase) -> Result<(), Wrong> {
    let query = case.query(alloc)?;
    if blocks_have_few_places(alloc, &query)? {
        show_query(alloc, shown, case, &query)
    } else {
        Err(Wrong::Line(0))
    }
}

fn show_query(
    alloc: Global,
    shown: &mut String,
    case: &NamedCase,
    query: &Query,
) -> Result<(), Wrong>
    requires few { BlocksHaveFewPlaces query.now }
{
    let tasks = block_tasks(alloc, case.accesses.as_slice(), query)?;
    show_tasks(alloc, shown, case, tasks.as_slice(), query)
}

// The query by the plans of its blocks.
fn show_tasks(
    alloc: Global,
    shown: &mut String,
    case: &NamedCase,
    tasks: &[Task],
    query: &Query,
) -> Result<(), Wrong>
    requires few { All HasFewAtoms tasks.now }
    requires places { BlocksHaveFewPlaces query.now }
    requires len { length tasks.now ≡ length (blocks_of query.now) }
{
    let guided = guided_flags(alloc, tasks)?;
    let derivations = plans_of(alloc, tasks)?;
    let plans = BlockPlans {
        accesses: case.accesses.as_slice(),
        guided: guided.as_slice(),
        derivations: derivations.as_slice(),
    };
    show_planned(alloc, shown, case, tasks, &plans, query)
}

// The blocks, what comes of the query where all of them are covered, and its full answer.
fn show_planned(
    alloc: Global,
    shown: &mut String,
    case: &NamedCase,
    tasks: &[Task],
    plans: &BlockPlans,
    query: &Query,
) -> Result<(), Wrong>
    requires few { All HasFewAtoms tasks.now }
    requires places { BlocksHaveFewPlaces query.now }
    requires flags { length plans.now.guided.now ≡ length (blocks_of query.now) }
{
    show_blocks(alloc, shown, case, tasks, plans, query)?;
    let full = full_of(alloc, &case.rows, query)?;
    match first_uncovered(alloc, tasks)? {
        Some(found) => writeln!(shown, "  the first uncovered block is {}", found.block)?,
        None => show_run(alloc, shown, case, plans, query, &full)?,
    }
    show_rows(shown, full.as_slice())
}

// The blocks from left to right.
fn show_blocks(
    alloc: Global,
    shown: &mut String,
    case: &NamedCase,
    tasks: &[Task],
    plans: &BlockPlans,
    query: &Query,
) -> Result<(), Wrong>
    requires few { All HasFewAtoms tasks.now }
    requires flags { length plans.now.guided.now ≡ length (blocks_of query.now) }
{
    let sizes = start_sizes(alloc, plans, query)?;
    let parts = case.blocks.iter().zip(tasks).zip(&sizes);
    for (number, ((named, task), size)) in parts.enumerate() {
        let steps = steps_of(plans.derivations, number);
        show_block(alloc, shown, case, named, task, *size, steps)?;
    }
    Ok(())
}

// What is announced of a covered query, its probes and its reads.
fn show_run(
    alloc: Global,
    shown: &mut String,
    case: &NamedCase,
    plans: &BlockPlans,
    query: &Query,
    full: &List<Row>,
) -> Result<(), Wrong>
    requires flags { length plans.now.guided.now ≡ length (blocks_of query.now) }
    requires few { BlocksHaveFewPlaces query.now }
{
    show_total(shown, "size", query_size(plans, query))?;
    show_total(shown, "number", query_bound(plans, query))?;
    let over = PlansOnTables {
        tables: &case.rows,
        plans: *plans,
    };
    for probe in query_probes(alloc, &over, query)?.as_slice() {
        show_probe(shown, probe)?;
    }
    writeln!(shown, "  reads {}", query_reads(alloc, &over, query)?)?;
    if query_answers(alloc, &case.rows, plans.guided, query)? != *full {
        writeln!(shown, "  the answers aren't the full answer")?;
    }
    Ok(())
}

fn show_total(shown: &mut String, word: &str, total: Option<u128>) -> Result<(), Wrong> {
    match total {
        Some(total) => writeln!(shown, "  {word} {total}")?,
        None => writeln!(shown, "  {word} past 128 bits")?,
    }
    Ok(())
}

fn show_values(shown: &mut String, row: &[Value]) -> Result<(), Wrong> {
    for value in row {
        match value {
            Value::Int(number) => write!(shown, " {number}")?,
            Value::Str(text) => write!(shown, " '{}", text.as_str())?,
        }
    }
    shown.push('\n')?;
    Ok(())
}

fn show_probe(shown: &mut String, probe: &BlockProbe) -> Result<(), Wrong> {
    write!(shown, "  probe {}.{}", probe.block, probe.probe.step)?;
    show_values(shown, probe.probe.key.as_slice())
}

fn show_rows(shown: &mut String, rows: &[Row]) -> Result<(), Wrong> {
    for row in rows {
        shown.push_str("  row")?;
        show_values(shown, row.as_slice())?;
    }
    Ok(())
}
