// What a query answers and reads.
ghost use Rattle.std.specs.Prelude.{◌≡◌, length};
ghost use Rattle.beas_core.specs.Trees.{blocks_of};
ghost use Rattle.reference_coverage.specs.Tasks.{BlocksHaveFewPlaces};

use crate::answers::query_answers;
use crate::guides::{GuidedBlocks, guided_blocks};
use crate::plans_on_tables::PlansOnTables;
use crate::probes::query_probes;
use crate::reads::query_reads;
use beas_core::{Answer, NoMemory, Query};
use reference_coverage::{Task, block_tasks, blocks_have_few_places, query_bound};
use std::alloc::Global;

/// What comes of a query by plans: its rows and reads; the announced number, nothing where that passes 2^128 - 1; and
/// what its guided blocks find.
#[derive(Drop)]
pub struct Run {
    pub answer: Answer,
    pub bound: Option<u128>,
    pub guided: GuidedBlocks,
}

/// What the guided blocks find. Probes are made only where there is one.
fn found_by_guides(
    alloc: Global,
    over: &PlansOnTables,
    tasks: &[Task],
    query: &Query,
) -> Result<GuidedBlocks, NoMemory>
    requires few { BlocksHaveFewPlaces query.now }
    requires flags { length over.now.plans.guided.now ≡ length (blocks_of query.now) }
{
    if !over.plans.guided.iter().any(|is_guided| *is_guided) {
        return Ok(guided_blocks(over, tasks, &[]));
    }
    let probes = query_probes(alloc, over, query)?;
    Ok(guided_blocks(over, tasks, probes.as_slice()))
}

fn run_by(
    alloc: Global,
    over: &PlansOnTables,
    tasks: &[Task],
    query: &Query,
) -> Result<Run, NoMemory>
    requires few { BlocksHaveFewPlaces query.now }
    requires flags { length over.now.plans.guided.now ≡ length (blocks_of query.now) }
{
    let reads = query_reads(alloc, over, query)?;
    let guided = found_by_guides(alloc, over, tasks, query)?;
    let rows = query_answers(alloc, over.tables, over.plans.guided, query)?;
    Ok(Run {
        answer: Answer { rows, reads },
        bound: query_bound(&over.plans, query),
        guided,
    })
}

/// What comes of a query by plans over tables. Nothing where a block has more atoms or columns than the reference programs
/// take, or where there isn't a flag for each block.
pub fn run_of(alloc: Global, over: &PlansOnTables, query: &Query) -> Result<Option<Run>, NoMemory> {
    if !blocks_have_few_places(alloc, query)? {
        return Ok(None);
    }
    let tasks = block_tasks(alloc, over.plans.accesses, query)?;
    if over.plans.guided.len() != tasks.len() {
        return Ok(None);
    }
    Ok(Some(run_by(alloc, over, tasks.as_slice(), query)?))
}
