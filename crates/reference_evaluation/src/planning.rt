// How a query is planned.
ghost use Rattle.std.specs.Prelude.{◌≡◌, All, length};
ghost use Rattle.beas_core.specs.Trees.{blocks_of};
ghost use Rattle.reference_coverage.specs.Tasks.{HasFewAtoms};

use beas_core::{Access, Derivation, List, NoMemory, Query};
use reference_coverage::{
    BlockPlans, Task, Uncovered, block_tasks, blocks_have_few_places, first_uncovered,
    greedy_steps, guided_flags, is_guided, plans_of, query_bound, steps_of,
};
use reference_normal_form::start_classes;
use std::alloc::Global;

/// Of each block of a query whether it is guided, and its derivation; how many derivations lost steps that may go; and
/// the announced number, nothing where that passes 2^128 - 1.
#[derive(Drop)]
pub struct QueryPlans {
    pub guided: List<bool>,
    pub derivations: List<Derivation>,
    pub shortened: u32,
    pub bound: Option<u128>,
}

/// How a query is planned.
#[derive(Drop)]
pub enum Planned {
    /// By these plans.
    Covered(QueryPlans),
    /// This is the first block that isn't covered.
    Uncovered(Uncovered),
    /// Not at all: a block has more atoms or columns than the reference programs take.
    TooWide,
}

/// How many steps a block's derivation has before any of them goes.
fn count_of_greedy(alloc: Global, task: &Task, is_guided: bool) -> Result<usize, NoMemory>
    requires { HasFewAtoms task.now }
{
    let start = start_classes(alloc, &task.normal, is_guided)?;
    match greedy_steps(alloc, &task.normal, task.accesses, start.as_slice())? {
        Some(steps) => Ok(steps.len()),
        None => Ok(0),
    }
}

/// How many derivations have fewer steps than before any of them goes.
fn count_of_shortened(alloc: Global, tasks: &[Task], plans: &BlockPlans) -> Result<u32, NoMemory>
    requires { All HasFewAtoms tasks.now }
{
    let mut count: u32 = 0;
    for (number, task) in tasks.iter().enumerate() {
        let before = count_of_greedy(alloc, task, is_guided(plans.guided, number))?;
        let is_shortened = steps_of(plans.derivations, number).len() < before;
        count = count.saturating_add(u32::from(is_shortened));
    }
    Ok(count)
}

fn plans_by(
    alloc: Global,
    accesses: &[Access],
    tasks: &[Task],
    query: &Query,
) -> Result<QueryPlans, NoMemory>
    requires few { All HasFewAtoms tasks.now }
    requires all { length tasks.now ≡ length (blocks_of query.now) }
{
    let guided = guided_flags(alloc, tasks)?;
    let derivations = plans_of(alloc, tasks)?;
    let plans = BlockPlans {
        accesses,
        guided: guided.as_slice(),
        derivations: derivations.as_slice(),
    };
    let bound = query_bound(&plans, query);
    let shortened = count_of_shortened(alloc, tasks, &plans)?;
    Ok(QueryPlans {
        guided,
        derivations,
        shortened,
        bound,
    })
}

/// How a query is planned over these constraints.
pub fn plan_query(alloc: Global, accesses: &[Access], query: &Query) -> Result<Planned, NoMemory> {
    if !blocks_have_few_places(alloc, query)? {
        return Ok(Planned::TooWide);
    }
    let tasks = block_tasks(alloc, accesses, query)?;
    match first_uncovered(alloc, tasks.as_slice())? {
        Some(found) => Ok(Planned::Uncovered(found)),
        None => Ok(Planned::Covered(plans_by(alloc, accesses, tasks.as_slice(), query)?)),
    }
}
