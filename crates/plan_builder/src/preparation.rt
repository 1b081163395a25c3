// What is announced of a query: for each block its normal form and derivation, and the greatest number of reads.
ghost use Rattle.std.specs.Prelude.{◌≡◌, ◌<◌, ◌≤◌, ◌+◌, ◌++◌, ◌∷◌, ◌^◌, [], All, Err, IfErr, IfOk, OnOk, MatchResult, None, Ok, Some, length, map, option_map};
ghost use Rattle.beas_core.specs.declared.refusal.Refusal.TheVariants.{TooLarge};
ghost use Rattle.beas_core.specs.declared.schema.Access.{Access};
ghost use Rattle.beas_core.specs.Classes.{normal_of};
ghost use Rattle.beas_core.specs.Coverage.{ClassesInRange};
ghost use Rattle.beas_core.specs.Fits.{Fits, PlanFits};
ghost use Rattle.beas_core.specs.Guiding.{after, block_tasks, first_uncovered, is_guided_task, task_reason, task_steps};
ghost use Rattle.beas_core.specs.Queries.{announced_in, query_bound, size_of};
ghost use Rattle.beas_core.specs.Results.{Gives, IsRefusedAs};
ghost use Rattle.beas_core.specs.Shapes.{BlockIsWellFormed, EachIdOnce, IsPlace, QueryIsWellFormed};
ghost use Rattle.beas_core.specs.Trees.{blocks_of};
ghost use Rattle.beas_core.specs.Types.{TableRows};
ghost use Rattle.catalogue.specs.Queries.{BlockIsOver, QueryIsOver, RowsAreWide};
ghost use Rattle.plan_builder.specs.Parts.{Grows, block_reads, block_size, blocks_at, normal_task, task_at, unless_too_large, whole};
ghost use Rattle.plan_builder.specs.Preparation.{IsWellFormedIn, block_header, constraints_with, header_of, not_covered, place_name, preparation, preparation_over, refusal_of, with_lists};

use crate::blocks::{BlockAt, count_blocks, joined, joined_all, lend, push_blocks};
use crate::derivations::{derive_from, steps_if_covered, why_none};
use crate::own::{are_few, own_accesses};
use beas_core::{
    Access, Block, Derivation, Duplicate, Fail, List, Name, NoMemory, Normal, NotCovered, Place,
    Prepared, Query, QueryNode, Refusal,
};
use bound_calculator::block_bound;
use catalogue::{Catalogue, recall_soundness};
use normal_form::normalise;
use std::alloc::Global;

/// The derivation of a block, and whether it is guided.
#[derive(Drop)]
pub struct TaskPlan {
    pub derivation: Derivation,
    pub guided: bool,
}

/// The normal forms of blocks, their derivations, and whether each is guided.
#[derive(Drop)]
pub struct Plans {
    pub normals: List<Normal>,
    pub derivations: List<Derivation>,
    pub guided: List<bool>,
}

/// What is announced of a query, without the query itself.
#[derive(Drop)]
pub struct Parts {
    pub header: List<Name>,
    pub plans: Plans,
    pub bound: u128,
}

/// How many tuples a part of a query reads at most, how many rows it answers at most, and the number of the first
/// block after it.
#[derive(Clone, Copy)]
pub struct Announced {
    pub reads: u128,
    pub size: u128,
    pub next: usize,
}

fn column_name(
    alloc: Global,
    catalogue: &Catalogue,
    block: &Block,
    place: Place,
) -> Result<Name, NoMemory>
    requires over { BlockIsOver catalogue.now block.now }
    requires place { IsPlace block.now.atoms place }
    ensures { IfOk result (λ name. name ≡ place_name catalogue.now block.now place) }
{
    let table = block.atoms.as_slice()[usize::from(place.atom)].table;
    let columns = catalogue.columns(table).as_slice();
    columns[usize::from(place.column.0)].name.copy(alloc)
}

fn block_header(alloc: Global, catalogue: &Catalogue, block: &Block) -> Result<List<Name>, NoMemory>
    requires places { All (IsPlace block.now.atoms) block.now.output }
    requires over { BlockIsOver catalogue.now block.now }
    ensures { IfOk result (λ header. header ≡ block_header catalogue.now block.now) }
{
    let mut header = List::from_vec(Vec::with_capacity(alloc, block.output.len())?);
    for place in block.output.as_slice() {
        header.push(column_name(alloc, catalogue, block, *place)?)?;
    }
    Ok(header)
}

// The column names of the first block's output.
fn header_of(
    alloc: Global,
    catalogue: &Catalogue,
    blocks: &[BlockAt<'_>],
) -> Result<List<Name>, NoMemory>
    requires shapes { All BlockIsWellFormed (blocks_at blocks.now) }
    requires over { All (BlockIsOver catalogue.now) (blocks_at blocks.now) }
    ensures { IfOk result (λ header. header ≡ header_of catalogue.now (blocks_at blocks.now)) }
{
    match blocks {
        [first, ..] => block_header(alloc, catalogue, first.block),
        [] => Ok(List::new(alloc)),
    }
}

// The refusal of the block with this number, counted from 1.
fn not_covered(
    alloc: Global,
    catalogue: &Catalogue,
    number: u32,
    at: BlockAt<'_>,
    why: NotCovered,
) -> Result<Refusal, NoMemory>
    requires over { BlockIsOver catalogue.now at.block.now }
    requires why { task_reason (task_at catalogue.now.accesses at) ≡ Some why }
    ensures { IfOk result (λ refusal. refusal ≡ not_covered catalogue.now number at.entry.block.now why) }
{
    match why {
        NotCovered::ColumnOpen { atom, column } => {
            let name = column_name(alloc, catalogue, at.block, Place { atom, column })?;
            Ok(Refusal::NotCovered {
                block: number,
                atom: u32::from(atom) + 1,
                column: Some(name),
            })
        }
        NotCovered::AtomUnindexed { atom } => Ok(Refusal::NotCovered {
            block: number,
            atom: u32::from(atom) + 1,
            column: None,
        }),
    }
}

// The derivation of a block from the classes of its constants; where it isn't covered from there and has a guide, from
// the classes of its output too.
fn plan_normal(
    alloc: Global,
    accesses: &List<Access>,
    normal: &Normal,
    has_guide: bool,
) -> Result<Result<TaskPlan, NotCovered>, NoMemory>
    requires ranges { ClassesInRange normal.now }
    requires atoms { length normal.now.atoms < 65536 }
    requires needed { length normal.now.needed ≤ 65536 }
    requires ids { EachIdOnce accesses.now }
    ensures { IfOk result (λ found. MatchResult found
        (λ plan. (plan.guided ≡ is_guided_task (normal_task normal.now accesses.now has_guide))
        × (task_steps (normal_task normal.now accesses.now has_guide) ≡ Some plan.derivation.steps)
        × (task_reason (normal_task normal.now accesses.now has_guide) ≡ None))
        (λ why. task_reason (normal_task normal.now accesses.now has_guide) ≡ Some why)) }
{
    if let Some(steps) = steps_if_covered(alloc, accesses, normal, false)? {
        return Ok(Ok(TaskPlan {
            derivation: Derivation { steps },
            guided: false,
        }));
    }
    if !has_guide {
        return Ok(Err(why_none(alloc, accesses, normal, false)?));
    }
    match derive_from(alloc, accesses, normal, true)? {
        Ok(derivation) => Ok(Ok(TaskPlan {
            derivation,
            guided: true,
        })),
        Err(why) => Ok(Err(why)),
    }
}

// The derivation of a block over the live constraints followed by its own.
fn plan_over(
    alloc: Global,
    accesses: &List<Access>,
    extra: &[Access],
    normal: &Normal,
    has_guide: bool,
) -> Result<Result<TaskPlan, NotCovered>, NoMemory>
    requires ranges { ClassesInRange normal.now }
    requires atoms { length normal.now.atoms < 65536 }
    requires needed { length normal.now.needed ≤ 65536 }
    requires ids { EachIdOnce (accesses.now ++ extra.now) }
    ensures { IfOk result (λ found. MatchResult found
        (λ plan. (plan.guided ≡ is_guided_task (normal_task normal.now (accesses.now ++ extra.now) has_guide))
        × (task_steps (normal_task normal.now (accesses.now ++ extra.now) has_guide) ≡ Some plan.derivation.steps)
        × (task_reason (normal_task normal.now (accesses.now ++ extra.now) has_guide) ≡ None))
        (λ why. task_reason (normal_task normal.now (accesses.now ++ extra.now) has_guide) ≡ Some why)) }
{
    if extra.is_empty() {
        return plan_normal(alloc, accesses, normal, has_guide);
    }
    let all = joined(alloc, accesses, extra)?;
    plan_normal(alloc, &all, normal, has_guide)
}

// The derivation of a block. Where the constraints on its tables are few among the live ones, it looks at no others.
fn plan_among(
    alloc: Global,
    catalogue: &Catalogue,
    at: BlockAt<'_>,
    normal: &Normal,
) -> Result<Result<TaskPlan, NotCovered>, NoMemory>
    requires over { BlockIsOver catalogue.now at.block.now }
    requires normal { normal.now ≡ normal_of at.block.now }
    requires ranges { ClassesInRange normal.now }
    requires atoms { length normal.now.atoms < 65536 }
    requires needed { length normal.now.needed ≤ 65536 }
    requires ids { EachIdOnce (catalogue.now.accesses ++ at.extra.now) }
    ensures { IfOk result (λ found. MatchResult found
        (λ plan. (plan.guided ≡ is_guided_task (task_at catalogue.now.accesses at.entry))
        × (task_steps (task_at catalogue.now.accesses at.entry) ≡ Some plan.derivation.steps)
        × (task_reason (task_at catalogue.now.accesses at.entry) ≡ None))
        (λ why. task_reason (task_at catalogue.now.accesses at.entry) ≡ Some why)) }
{
    if !are_few(catalogue, at.block, at.extra) {
        return plan_over(alloc, catalogue.accesses(), at.extra, normal, at.has_guide);
    }
    let own = own_accesses(alloc, catalogue, at.block)?;
    plan_normal(alloc, &own, normal, at.has_guide)
}

// The normal form of the block with this number, and its derivation.
fn plan_block(
    alloc: Global,
    catalogue: &Catalogue,
    number: u32,
    at: BlockAt<'_>,
) -> Result<(Normal, TaskPlan), Fail>
    requires shape { BlockIsWellFormed at.block.now }
    requires over { BlockIsOver catalogue.now at.block.now }
    requires ids { EachIdOnce (catalogue.now.accesses ++ at.extra.now) }
    ensures refused { IsRefusedAs result (option_map
        (not_covered catalogue.now number at.entry.block.now)
        (task_reason (task_at catalogue.now.accesses at.entry))) }
    ensures normal { IfOk result (λ plan. plan.0 ≡ normal_of at.entry.block.now) }
    ensures guided { IfOk result (λ plan. plan.1.guided ≡ is_guided_task (task_at catalogue.now.accesses at.entry)) }
    ensures steps { IfOk result (λ plan. Some plan.1.derivation.steps
        ≡ task_steps (task_at catalogue.now.accesses at.entry)) }
{
    let normal = normalise(alloc, at.block)?;
    // Let go by calls, whose proofs are far shorter than those of the drops at the end of a scope.
    match plan_among(alloc, catalogue, at, &normal) {
        Ok(Ok(plan)) => Ok((normal, plan)),
        Ok(Err(why)) => {
            drop(normal);
            Err(Fail::Refused(not_covered(alloc, catalogue, number, at, why)?))
        }
        Err(NoMemory) => {
            drop(normal);
            Err(Fail::NoMemory)
        }
    }
}

// No plans, with room for so many.
fn room_for(alloc: Global, count: usize) -> Result<Plans, NoMemory>
    ensures normals { IfOk result (λ plans. plans.normals ≡ []) }
    ensures guided { IfOk result (λ plans. plans.guided ≡ []) }
    ensures derivations { IfOk result (λ plans. plans.derivations ≡ []) }
{
    let normals = List::from_vec(Vec::with_capacity(alloc, count)?);
    let derivations = List::from_vec(Vec::with_capacity(alloc, count)?);
    let guided = List::from_vec(Vec::with_capacity(alloc, count)?);
    Ok(Plans {
        normals,
        derivations,
        guided,
    })
}

fn push_plan(plans: &mut Plans, normal: Normal, plan: TaskPlan) -> Result<(), NoMemory>
    ensures normals { OnOk result (plans.new.normals ≡ plans.old.normals ++ normal ∷ []) }
    ensures guided { OnOk result (plans.new.guided ≡ plans.old.guided ++ plan.guided ∷ []) }
    ensures derivations { OnOk result (plans.new.derivations ≡ plans.old.derivations ++ plan.derivation ∷ []) }
{
    plans.normals.push(normal)?;
    plans.derivations.push(plan.derivation)?;
    plans.guided.push(plan.guided)
}

// Adds the plan of the block with this number, counted from 1.
fn plan_next(
    alloc: Global,
    catalogue: &Catalogue,
    number: u32,
    at: BlockAt<'_>,
    plans: &mut Plans,
) -> Result<(), Fail>
    requires shape { BlockIsWellFormed at.block.now }
    requires over { BlockIsOver catalogue.now at.block.now }
    requires ids { EachIdOnce (catalogue.now.accesses ++ at.extra.now) }
    ensures refused { IsRefusedAs result (option_map
        (not_covered catalogue.now number at.entry.block.now)
        (task_reason (task_at catalogue.now.accesses at.entry))) }
    ensures normals { OnOk result (plans.new.normals ≡ plans.old.normals ++ normal_of at.entry.block.now ∷ []) }
    ensures guided { OnOk result (plans.new.guided
        ≡ plans.old.guided ++ is_guided_task (task_at catalogue.now.accesses at.entry) ∷ []) }
    ensures derivations { OnOk result (map (λ d. Some d.steps) plans.new.derivations
        ≡ map (λ d. Some d.steps) plans.old.derivations ++ task_steps (task_at catalogue.now.accesses at.entry) ∷ []) }
{
    let (normal, plan) = plan_block(alloc, catalogue, number, at)?;
    Ok(push_plan(plans, normal, plan)?)
}

fn plan_blocks(alloc: Global, catalogue: &Catalogue, blocks: &[BlockAt<'_>]) -> Result<Plans, Fail>
    requires shapes { All BlockIsWellFormed (blocks_at blocks.now) }
    requires over { All (BlockIsOver catalogue.now) (blocks_at blocks.now) }
    requires ids { All (λ at. EachIdOnce (catalogue.now.accesses ++ at.extra.now)) blocks.now }
    requires few { length blocks.now < 2 ^ 32 }
    ensures refused { IsRefusedAs result
        (option_map (refusal_of catalogue.now (blocks_at blocks.now))
        (first_uncovered (map (task_at catalogue.now.accesses) blocks.now))) }
    ensures normals { IfOk result (λ plans. plans.normals ≡ map normal_of (blocks_at blocks.now)) }
    ensures guided { IfOk result (λ plans. plans.guided
        ≡ map is_guided_task (map (task_at catalogue.now.accesses) blocks.now)) }
    ensures derivations { IfOk result (λ plans. map (λ d. Some d.steps) plans.derivations
        ≡ map task_steps (map (task_at catalogue.now.accesses) blocks.now)) }
{
    let mut plans = room_for(alloc, blocks.len())?;
    for (place, at) in blocks.iter().enumerate() {
        plan_next(alloc, catalogue, place as u32 + 1, *at, &mut plans)?;
    }
    Ok(plans)
}

// What is announced of two parts together, where both sides of the sum give rows. `TooLarge` exactly where their reads
// pass 2^128 - 1, since their rows are no more than these.
fn both(one: Announced, other: Announced) -> Result<Announced, Refusal>
    requires one { one.size ≤ one.reads }
    requires other { other.size ≤ other.reads }
    ensures { MatchResult result
        (λ announced. announced ≡ record {
          reads = one.reads + other.reads;
          size = one.size + other.size;
          next = other.next;
        })
        (λ why. (why ≡ TooLarge) × (2 ^ 128 ≤ one.reads + other.reads)) }
{
    let Some(reads) = one.reads.checked_add(other.reads) else {
        return Err(Refusal::TooLarge);
    };
    match one.size.checked_add(other.size) {
        Some(size) => Ok(Announced {
            reads,
            size,
            next: other.next,
        }),
        None => Err(Refusal::TooLarge),
    }
}

// What is announced of two parts together, where the left side alone gives rows.
fn left_alone(one: Announced, other: Announced) -> Result<Announced, Refusal>
    ensures { MatchResult result
        (λ announced. announced ≡ record {
          reads = one.reads + other.reads;
          size = one.size;
          next = other.next;
        })
        (λ why. (why ≡ TooLarge) × (2 ^ 128 ≤ one.reads + other.reads)) }
{
    match one.reads.checked_add(other.reads) {
        Some(reads) => Ok(Announced {
            reads,
            size: one.size,
            next: other.next,
        }),
        None => Err(Refusal::TooLarge),
    }
}

// What is announced of a block before whose first step as many valuations stand as its guide has rows, where it is
// guided.
fn announce_block(
    plans: &Plans,
    accesses: &List<Access>,
    number: usize,
    guide: u128,
) -> Result<Announced, Refusal>
    requires ids { EachIdOnce accesses.now }
    requires grow { All (Grows accesses.now) plans.now.derivations }
    requires derivation { number < length plans.now.derivations }
    requires guided { number < length plans.now.guided }
    ensures rows { IfOk result (λ announced. announced.size ≤ announced.reads) }
    ensures announced { MatchResult result
        (λ announced. announced ≡ record {
          reads = block_reads accesses.now plans.now number guide;
          size = block_size accesses.now plans.now number guide;
          next = number + 1;
        })
        (λ why. (why ≡ TooLarge) × (2 ^ 128 ≤ block_reads accesses.now plans.now number guide)) }
{
    let derivation = &plans.derivations.as_slice()[number];
    let first = if plans.guided.as_slice()[number] {
        guide
    } else {
        1
    };
    let sizes = block_bound(derivation, accesses, first)?;
    Ok(Announced {
        reads: sizes.reads,
        size: sizes.last,
        next: number + 1,
    })
}

// What is announced of a part of a query, where its guide has at most so many rows. `TooLarge` exactly where its reads
// pass 2^128 - 1, since its rows are no more than these.
fn announce(
    query: &Query,
    plans: &Plans,
    accesses: &List<Access>,
    first: usize,
    guide: u128,
) -> Result<Announced, Refusal>
    requires ids { EachIdOnce accesses.now }
    requires grow { All (Grows accesses.now) plans.now.derivations }
    requires derivations { after first query.now ≤ length plans.now.derivations }
    requires guided { after first query.now ≤ length plans.now.guided }
    ensures rows { IfOk result (λ announced. announced.size ≤ announced.reads) }
    ensures announced { MatchResult result
        (λ announced. announced ≡ record {
          reads = announced_in accesses.now plans.now.guided plans.now.derivations first guide query.now;
          size = size_of accesses.now plans.now.guided plans.now.derivations first guide query.now;
          next = after first query.now;
        })
        (λ why. (why ≡ TooLarge)
        × (2 ^ 128 ≤ announced_in accesses.now plans.now.guided plans.now.derivations first guide query.now)) }
{
    match &query.node {
        QueryNode::Block(_) => announce_block(plans, accesses, first, guide),
        QueryNode::Union(left, right) => {
            let one = announce(left, plans, accesses, first, guide)?;
            let other = announce(right, plans, accesses, one.next, guide)?;
            both(one, other)
        }
        QueryNode::Except(left, right) => {
            let one = announce(left, plans, accesses, first, guide)?;
            let other = announce(right, plans, accesses, one.next, one.size)?;
            left_alone(one, other)
        }
    }
}

// What is announced of a whole query over the live constraints and those of the lists.
fn announce_over(
    alloc: Global,
    accesses: &List<Access>,
    extra: &[List<Access>],
    query: &Query,
    plans: &Plans,
) -> Result<u128, Fail>
    requires ids { EachIdOnce (with_lists accesses.now extra.now) }
    requires grow { All (Grows (with_lists accesses.now extra.now)) plans.now.derivations }
    requires derivations { length (blocks_of query.now) ≤ length plans.now.derivations }
    requires guided { length (blocks_of query.now) ≤ length plans.now.guided }
    ensures { Gives result (unless_too_large
        (query_bound (with_lists accesses.now extra.now) plans.now.guided plans.now.derivations query.now)) }
{
    if extra.is_empty() {
        return Ok(announce(query, plans, accesses, 0, 1)?.reads);
    }
    let all = joined_all(alloc, accesses, extra)?;
    Ok(announce(query, plans, &all, 0, 1)?.reads)
}

// What is announced of a query whose blocks are lent.
fn parts_with(
    alloc: Global,
    catalogue: &Catalogue,
    extra: &[List<Access>],
    query: &Query,
    lent: &[BlockAt<'_>],
) -> Result<Parts, Fail>
    requires well_formed { QueryIsWellFormed query.now }
    requires over { QueryIsOver catalogue.now query.now }
    requires few { length (blocks_of query.now) < 2 ^ 32 }
    requires blocks { blocks_at lent.now ≡ blocks_of query.now }
    requires tasks { (accesses : List Access) → map (task_at accesses) lent.now
        ≡ block_tasks (constraints_with accesses extra.now) query.now }
    requires ids { EachIdOnce (with_lists catalogue.now.accesses extra.now) }
    requires extra { All (All (IsWellFormedIn catalogue.now)) extra.now }
    ensures refused { IfErr result (λ why. Gives (Err why) (preparation_over catalogue.now extra.now query.now)) }
    ensures prepared { IfOk result (λ parts.
        Gives (Ok (whole query.now parts)) (preparation_over catalogue.now extra.now query.now)) }
    ensures plan { IfOk result (λ parts. PlanFits (with_lists catalogue.now.accesses extra.now) (whole query.now parts)) }
{
    let plans = plan_blocks(alloc, catalogue, lent)?;
    let bound = announce_over(alloc, catalogue.accesses(), extra, query, &plans)?;
    let header = header_of(alloc, catalogue, lent)?;
    Ok(Parts {
        header,
        plans,
        bound,
    })
}

// What is announced of a query. The list of the blocks of one that is a single block takes no block of memory.
fn parts_of(
    alloc: Global,
    catalogue: &Catalogue,
    extra: &[List<Access>],
    query: &Query,
) -> Result<Parts, Fail>
    requires well_formed { QueryIsWellFormed query.now }
    requires over { QueryIsOver catalogue.now query.now }
    requires few { length (blocks_of query.now) < 2 ^ 32 }
    requires ids { EachIdOnce (with_lists catalogue.now.accesses extra.now) }
    requires extra { All (All (IsWellFormedIn catalogue.now)) extra.now }
    ensures refused { IfErr result (λ why. Gives (Err why) (preparation_over catalogue.now extra.now query.now)) }
    ensures prepared { IfOk result (λ parts.
        Gives (Ok (whole query.now parts)) (preparation_over catalogue.now extra.now query.now)) }
    ensures plan { IfOk result (λ parts. PlanFits (with_lists catalogue.now.accesses extra.now) (whole query.now parts)) }
{
    if let QueryNode::Block(block) = &query.node {
        let lent = [lend(block, extra)];
        return parts_with(alloc, catalogue, extra, query, &lent);
    }
    let mut found = List::from_vec(Vec::with_capacity(alloc, count_blocks(query))?);
    push_blocks(query, extra, false, &mut found)?;
    parts_with(alloc, catalogue, extra, query, found.as_slice())
}

/// A query with all that is announced of it where its blocks may use more constraints than the live ones: block i those
/// of list i besides, which follow the live ones in the order of choice. A list that isn't there is an empty one. Refused
/// as `prepare` refuses, over these constraints; what it gives fits every port that has all of them.
pub fn prepare_over(
    alloc: Global,
    catalogue: &Catalogue,
    extra: &List<List<Access>>,
    query: Query,
) -> Result<Prepared, Fail>
    requires well_formed { QueryIsWellFormed query }
    requires over { QueryIsOver catalogue.now query }
    requires few { length (blocks_of query) < 2 ^ 32 }
    requires ids { EachIdOnce (with_lists catalogue.now.accesses extra.now) }
    requires extra { All (All (IsWellFormedIn catalogue.now)) extra.now }
    ensures prepared { Gives result (preparation_over catalogue.now extra.now query) }
    ensures plan { IfOk result (PlanFits (with_lists catalogue.now.accesses extra.now)) }
    ensures fits { IfOk result (λ prepared. (rows : TableRows) → RowsAreWide catalogue.now rows
        → Fits (with_lists catalogue.now.accesses extra.now) rows prepared) }
{
    let parts = parts_of(alloc, catalogue, extra.as_slice(), &query)?;
    Ok(Prepared {
        query,
        header: parts.header,
        normals: parts.plans.normals,
        derivations: parts.plans.derivations,
        bound: parts.bound,
        guided: parts.plans.guided,
    })
}

/// A query with all that is announced of it, before any row is read. Refused as `NotCovered` for its first block that
/// isn't covered, and where all are as `TooLarge`, exactly where the announced number passes 2^128 - 1. What it gives
/// fits every port with the catalogue's constraints whose rows have their tables' widths.
pub fn prepare(alloc: Global, catalogue: &Catalogue, query: Query) -> Result<Prepared, Fail>
    requires well_formed { QueryIsWellFormed query }
    requires over { QueryIsOver catalogue.now query }
    requires few { length (blocks_of query) < 2 ^ 32 }
    ensures prepared { Gives result (preparation catalogue.now query) }
    ensures plan { IfOk result (PlanFits catalogue.now.accesses) }
    ensures fits { IfOk result (λ prepared. (rows : TableRows) → RowsAreWide catalogue.now rows
        → Fits catalogue.now.accesses rows prepared) }
{
    // No id stands twice among the live constraints.
    recall_soundness(catalogue);
    prepare_over(alloc, catalogue, &List::new(alloc), query)
}
