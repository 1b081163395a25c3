// The blocks of a query as they are to be planned: which have a guide, which are guided, and which aren't covered.
ghost use Rattle.std.specs.Prelude.{◌≡◌, ◌<◌, ◌+◌, ◌^◌, ◌↔◌, ◌∷◌, [], ℕ, length, map, unwrap_or, All, IfOk, IsTrue};
ghost use Rattle.beas_core.specs.Guiding.{block_tasks, first_uncovered, first_uncovered_from, is_guided_task, task_reason, task_start, task_steps};
ghost use Rattle.beas_core.specs.Classes.{normal_of};
ghost use Rattle.beas_core.specs.Coverage.{own_is_covered};
ghost use Rattle.beas_core.specs.Trees.{blocks_of};
ghost use Rattle.reference_coverage.specs.Tasks.{BlocksHaveFewPlaces, HasFewAtoms, tasks_with};
ghost use Rattle.reference_normal_form.specs.Few.{HasFewPlaces};

use crate::coverage::{covered_set, is_covered, reason};
use crate::lists::append;
use crate::pruning::derivation;
use beas_core::{
    Access, Block, DStep, Derivation, List, NoMemory, Normal, NotCovered, Query, QueryNode,
};
use reference_normal_form::{constant_classes, has_few_places, normal_of, start_classes};
use std::alloc::Global;
use std::marker::Model;

/// A block to be planned: its normal form, the constraints that it may use, and whether it has a guide.
#[derive(Drop)]
pub struct Task<'a> {
    pub normal: Normal,
    pub accesses: &'a [Access],
    pub has_guide: bool,
}

impl<'a> Model for Task<'a> {
    ghost use Rattle.beas_core.specs.Guiding.{BlockTask};

    ghost Value = { BlockTask };

    ghost view = { λ t. record { normal = t.normal; accesses = t.accesses.now; has_guide = t.has_guide } };
}

/// A block that isn't covered, by its number from 0 on.
#[derive(Drop)]
pub struct Uncovered {
    pub block: usize,
    pub why: NotCovered,
}

impl Model for Uncovered {
    ghost use Rattle.beas_core.specs.Guiding.{Uncovered};

    ghost Value = { Uncovered };

    ghost view = { λ u. record { block = u.block; why = u.why } };
}

/// Whether each block of a query has fewer than 65536 atoms and fewer than 65536 places.
#[tactic(auto, using(crate::proofs::TaskFacts::both_few))]
pub fn blocks_have_few_places(alloc: Global, query: &Query) -> Result<bool, NoMemory>
    ensures { IfOk result (λ few. IsTrue few ↔ BlocksHaveFewPlaces query.now) }
{
    match &query.node {
        QueryNode::Block(block) => has_few_places(alloc, block),
        QueryNode::Union(left, right) | QueryNode::Except(left, right) => {
            let left_have = blocks_have_few_places(alloc, left)?;
            let right_have = blocks_have_few_places(alloc, right)?;
            // Both are worked out before they are joined: `&&` would part the proof in cases.
            Ok(left_have & right_have)
        }
    }
}

fn task_of<'a>(
    alloc: Global,
    accesses: &'a [Access],
    has_guide: bool,
    block: &Block,
) -> Result<Task<'a>, NoMemory>
    requires { HasFewPlaces block.now }
    ensures { IfOk result (λ task. task
        ≡ record { normal = normal_of block.now; accesses = accesses.now; has_guide = has_guide }) }
{
    Ok(Task {
        normal: normal_of(alloc, block)?,
        accesses,
        has_guide,
    })
}

fn one_task<'a>(
    alloc: Global,
    accesses: &'a [Access],
    has_guide: bool,
    block: &Block,
) -> Result<List<Task<'a>>, NoMemory>
    requires { HasFewPlaces block.now }
    ensures { IfOk result (λ tasks. tasks
        ≡ (record { normal = normal_of block.now; accesses = accesses.now; has_guide = has_guide }) ∷ []) }
{
    let mut tasks = List::new(alloc);
    tasks.push(task_of(alloc, accesses, has_guide, block)?)?;
    Ok(tasks)
}

// The tasks of a tree, where `has_guide` says whether it has a guide as a whole.
fn tasks_from<'a>(
    alloc: Global,
    accesses: &'a [Access],
    has_guide: bool,
    query: &Query,
) -> Result<List<Task<'a>>, NoMemory>
    requires { BlocksHaveFewPlaces query.now }
    ensures { IfOk result (λ tasks. tasks ≡ tasks_with accesses.now has_guide query.now) }
{
    match &query.node {
        QueryNode::Block(block) => one_task(alloc, accesses, has_guide, block),
        QueryNode::Union(left, right) => append(
            tasks_from(alloc, accesses, has_guide, left)?,
            tasks_from(alloc, accesses, has_guide, right)?,
        ),
        QueryNode::Except(left, right) => append(
            tasks_from(alloc, accesses, has_guide, left)?,
            tasks_from(alloc, accesses, true, right)?,
        ),
    }
}

/// The blocks of a query as tasks, where each may use these constraints.
pub fn block_tasks<'a>(
    alloc: Global,
    accesses: &'a [Access],
    query: &Query,
) -> Result<List<Task<'a>>, NoMemory>
    requires { BlocksHaveFewPlaces query.now }
    ensures tasks { IfOk result (λ tasks. tasks ≡ block_tasks (λ n. accesses.now) query.now) }
    ensures few { IfOk result (λ tasks. All HasFewAtoms tasks) }
    ensures len { IfOk result (λ tasks. length tasks ≡ length (blocks_of query.now)) }
{
    let tasks = tasks_from(alloc, accesses, false, query)?;
    Ok(tasks)
}

fn own_is_covered(alloc: Global, normal: &Normal, accesses: &[Access]) -> Result<bool, NoMemory>
    requires atoms { length normal.now.atoms < 65536 }
    requires needed { length normal.now.needed < 65536 }
    ensures { IfOk result (λ covered. covered ≡ own_is_covered normal.now accesses.now) }
{
    let start = constant_classes(alloc, normal)?;
    let covered = covered_set(alloc, normal, accesses, start.as_slice())?;
    is_covered(alloc, normal, accesses, covered.as_slice())
}

/// Whether a block starts from its guide's answers: it has a guide, and isn't covered by itself.
pub fn is_guided_task(alloc: Global, task: &Task) -> Result<bool, NoMemory>
    requires { HasFewAtoms task.now }
    ensures { IfOk result (λ guided. guided ≡ is_guided_task task.now) }
{
    let is_covered = own_is_covered(alloc, &task.normal, task.accesses)?;
    Ok(task.has_guide && !is_covered)
}

/// The classes that are bound before a block's first step.
pub fn task_start(alloc: Global, task: &Task) -> Result<List<bool>, NoMemory>
    requires { HasFewAtoms task.now }
    ensures { IfOk result (λ start. start ≡ task_start task.now) }
{
    let is_guided = is_guided_task(alloc, task)?;
    start_classes(alloc, &task.normal, is_guided)
}

/// Why a block isn't covered from its start, nothing where it is.
pub fn task_reason(alloc: Global, task: &Task) -> Result<Option<NotCovered>, NoMemory>
    requires { HasFewAtoms task.now }
    ensures { IfOk result (λ why. why ≡ task_reason task.now) }
{
    let start = task_start(alloc, task)?;
    let covered = covered_set(alloc, &task.normal, task.accesses, start.as_slice())?;
    reason(alloc, &task.normal, task.accesses, covered.as_slice())
}

/// The canonical derivation of a block from its start, nothing where it isn't covered.
fn task_steps(alloc: Global, task: &Task) -> Result<Option<List<DStep>>, NoMemory>
    requires { HasFewAtoms task.now }
    ensures { IfOk result (λ steps. steps ≡ task_steps task.now) }
{
    let start = task_start(alloc, task)?;
    derivation(alloc, &task.normal, task.accesses, start.as_slice())
}

fn first_uncovered_from(
    alloc: Global,
    first: usize,
    tasks: &[Task],
) -> Result<Option<Uncovered>, NoMemory>
    requires few { All HasFewAtoms tasks.now }
    requires numbers { first + length tasks.now < 2 ^ 64 }
    ensures { IfOk result (λ found. found ≡ first_uncovered_from first tasks.now) }
{
    match tasks {
        [] => Ok(None),
        [task, rest @ ..] => match task_reason(alloc, task)? {
            Some(why) => Ok(Some(Uncovered { block: first, why })),
            None => first_uncovered_from(alloc, first + 1, rest),
        },
    }
}

/// The first block that isn't covered from its start, with its reason.
pub fn first_uncovered(alloc: Global, tasks: &[Task]) -> Result<Option<Uncovered>, NoMemory>
    requires { All HasFewAtoms tasks.now }
    ensures { IfOk result (λ found. found ≡ first_uncovered tasks.now) }
{
    first_uncovered_from(alloc, 0, tasks)
}

/// Of each block whether it is guided.
pub fn guided_flags(alloc: Global, tasks: &[Task]) -> Result<List<bool>, NoMemory>
    requires { All HasFewAtoms tasks.now }
    ensures flags { IfOk result (λ guided. guided ≡ map is_guided_task tasks.now) }
    ensures len { IfOk result (λ guided. length guided ≡ length tasks.now) }
{
    let mut guided = List::new(alloc);
    for task in tasks {
        guided.push(is_guided_task(alloc, task)?)?;
    }
    Ok(guided)
}

fn plan_of_task(alloc: Global, task: &Task) -> Result<Derivation, NoMemory>
    requires { HasFewAtoms task.now }
    ensures { IfOk result (λ plan. plan ≡ record { steps = unwrap_or (task_steps task.now) [] }) }
{
    let steps = match task_steps(alloc, task)? {
        Some(steps) => steps,
        None => List::new(alloc),
    };
    Ok(Derivation { steps })
}

/// The canonical derivation of each block, without a step where it isn't covered.
pub fn plans_of(alloc: Global, tasks: &[Task]) -> Result<List<Derivation>, NoMemory>
    requires { All HasFewAtoms tasks.now }
    ensures plans { IfOk result (λ plans. plans
        ≡ map (λ task. record { steps = unwrap_or (task_steps task) [] }) tasks.now) }
    ensures len { IfOk result (λ plans. length plans ≡ length tasks.now) }
{
    let mut plans = List::new(alloc);
    for task in tasks {
        plans.push(plan_of_task(alloc, task)?)?;
    }
    Ok(plans)
}
