// The first block of a query that isn't covered.
ghost use Rattle.std.specs.Prelude.{◌≡◌, ◌≤◌, ◌<◌, ◌++◌, ◌^◌, All, IfOk, length, map, option_map};
ghost use Rattle.beas_core.specs.Coverage.{ClassesInRange};
ghost use Rattle.beas_core.specs.Guiding.{block_tasks, first_uncovered, task_reason};
ghost use Rattle.beas_core.specs.Shapes.{BlockIsWellFormed, QueryIsWellFormed};
ghost use Rattle.beas_core.specs.Trees.{blocks_of};
ghost use Rattle.plan_builder.specs.Parts.{blocks_at, normal_task, task_at};
ghost use Rattle.plan_builder.specs.Preparation.{constraints_with};

use crate::blocks::{BlockAt, count_blocks, joined, push_blocks};
use crate::sets::start_of;
use attribute_closure::{close, close_from, why_not};
use beas_core::{Access, List, NoMemory, Normal, NotCovered, Query};
use catalogue::Catalogue;
use normal_form::normalise;
use std::alloc::Global;

// Why some constraints don't cover a block: from the classes of its constants where it has no guide or is covered by
// itself, and else from those of its output too. Nothing where they do.
fn block_reason(
    alloc: Global,
    accesses: &List<Access>,
    normal: &Normal,
    has_guide: bool,
) -> Result<Option<NotCovered>, NoMemory>
    requires ranges { ClassesInRange normal.now }
    requires atoms { length normal.now.atoms < 65536 }
    requires needed { length normal.now.needed ≤ 65536 }
    ensures { IfOk result (λ why. why ≡ task_reason (normal_task normal.now accesses.now has_guide)) }
{
    let own = close(alloc, normal, accesses)?;
    match why_not(normal, accesses.as_slice(), own.as_slice()) {
        None => return Ok(None),
        Some(why) => {
            if !has_guide {
                return Ok(Some(why));
            }
        }
    }
    let start = start_of(alloc, normal, true)?;
    let covered = close_from(alloc, normal, accesses, &start)?;
    Ok(why_not(normal, accesses.as_slice(), covered.as_slice()))
}

// Why a block isn't covered by some constraints followed by others.
fn reason_over(
    alloc: Global,
    accesses: &List<Access>,
    extra: &[Access],
    normal: &Normal,
    has_guide: bool,
) -> Result<Option<NotCovered>, NoMemory>
    requires ranges { ClassesInRange normal.now }
    requires atoms { length normal.now.atoms < 65536 }
    requires needed { length normal.now.needed ≤ 65536 }
    ensures { IfOk result (λ why. why
        ≡ task_reason (normal_task normal.now (accesses.now ++ extra.now) has_guide)) }
{
    if extra.is_empty() {
        return block_reason(alloc, accesses, normal, has_guide);
    }
    let all = joined(alloc, accesses, extra)?;
    block_reason(alloc, &all, normal, has_guide)
}

fn reason_at(
    alloc: Global,
    accesses: &List<Access>,
    at: BlockAt<'_>,
) -> Result<Option<NotCovered>, NoMemory>
    requires { BlockIsWellFormed at.block.now }
    ensures { IfOk result (λ why. why ≡ task_reason (task_at accesses.now at.entry)) }
{
    let normal = normalise(alloc, at.block)?;
    reason_over(alloc, accesses, at.extra, &normal, at.has_guide)
}

fn first_lacking(
    alloc: Global,
    accesses: &List<Access>,
    blocks: &[BlockAt<'_>],
) -> Result<Option<(u32, NotCovered)>, NoMemory>
    requires shapes { All BlockIsWellFormed (blocks_at blocks.now) }
    requires few { length blocks.now < 2 ^ 32 }
    ensures { IfOk result (λ found. option_map (λ f. record { block = f.0; why = f.1 }) found
        ≡ first_uncovered (map (task_at accesses.now) blocks.now)) }
{
    for (place, at) in blocks.iter().enumerate() {
        if let Some(why) = reason_at(alloc, accesses, *at)? {
            return Ok(Some((place as u32, why)));
        }
    }
    Ok(None)
}

/// The first block of a query that isn't covered, by its number from 0 on, and why, where block i may use the live
/// constraints followed by those of list i. A list that isn't there is an empty one. Nothing where all blocks are covered.
pub fn lacking(
    alloc: Global,
    catalogue: &Catalogue,
    extra: &List<List<Access>>,
    query: &Query,
) -> Result<Option<(u32, NotCovered)>, NoMemory>
    requires well_formed { QueryIsWellFormed query.now }
    requires few { length (blocks_of query.now) < 2 ^ 32 }
    ensures { IfOk result (λ found. option_map (λ f. record { block = f.0; why = f.1 }) found
        ≡ first_uncovered (block_tasks (constraints_with catalogue.now.accesses extra.now) query.now)) }
{
    let mut found = List::from_vec(Vec::with_capacity(alloc, count_blocks(query))?);
    push_blocks(query, extra.as_slice(), false, &mut found)?;
    first_lacking(alloc, catalogue.accesses(), found.as_slice())
}
