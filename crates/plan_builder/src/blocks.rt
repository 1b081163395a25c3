// The blocks of a query as they are lent for planning, and the constraints that each may use.
ghost use Rattle.std.specs.Prelude.{◌≡◌, ◌<◌, ◌++◌, ◌^◌, [], IfOk, OnOk, false, length, map, slice_index_or};
ghost use Rattle.std.specs.List.{flat_map};
ghost use Rattle.beas_core.specs.declared.schema.Access.{Access};
ghost use Rattle.beas_core.specs.Guiding.{tasks_from};
ghost use Rattle.beas_core.specs.Trees.{blocks_of};
ghost use Rattle.plan_builder.specs.Parts.{blocks_at, task_at};

use beas_core::{Access, Block, Duplicate, List, NoMemory, Query, QueryNode};
use std::alloc::Global;

/// A block of a query, the constraints that it may use besides the live ones, and whether it has a guide.
#[derive(Clone, Copy)]
pub struct BlockAt<'a> {
    pub block: &'a Block,
    pub extra: &'a [Access],
    pub has_guide: bool,
}

// A list that isn't there is an empty one.
fn extra_of<'a>(extra: &'a [List<Access>], number: usize) -> &'a [Access]
    ensures { result.now ≡ slice_index_or extra.now number [] }
{
    match extra.get(number) {
        Some(more) => more.as_slice(),
        None => &[],
    }
}

/// Lends the only block of a query, which has no guide.
pub fn lend<'a>(block: &'a Block, extra: &'a [List<Access>]) -> BlockAt<'a>
    ensures block { result.block.now ≡ block.now }
    ensures extra { result.extra.now ≡ slice_index_or extra.now 0 [] }
    ensures has_guide { result.has_guide ≡ false }
{
    BlockAt {
        block,
        extra: extra_of(extra, 0),
        has_guide: false,
    }
}

/// How many blocks a part of a query has.
pub fn count_blocks(query: &Query) -> usize
    requires { length (blocks_of query.now) < 2 ^ 32 }
    ensures { result ≡ length (blocks_of query.now) }
{
    match &query.node {
        QueryNode::Block(_) => 1,
        QueryNode::Union(left, right) | QueryNode::Except(left, right) => {
            count_blocks(left) + count_blocks(right)
        }
    }
}

/// Lends the blocks of a part of a query after those that are lent. The lists of further constraints are by the numbers
/// of blocks.
pub fn push_blocks<'a>(
    query: &'a Query,
    extra: &'a [List<Access>],
    has_guide: bool,
    found: &mut List<BlockAt<'a>>,
) -> Result<(), NoMemory>
    ensures blocks { OnOk result (blocks_at found.new ≡ blocks_at found.old ++ blocks_of query.now) }
    ensures tasks { OnOk result ((accesses : List Access) → map (task_at accesses) found.new
        ≡ map (task_at accesses) found.old
        ++ tasks_from (λ n. accesses ++ slice_index_or extra.now n []) (length found.old) has_guide query.now) }
{
    match &query.node {
        QueryNode::Block(block) => {
            let extra = extra_of(extra, found.len());
            found.push(BlockAt {
                block,
                extra,
                has_guide,
            })
        }
        QueryNode::Union(left, right) => {
            push_blocks(left, extra, has_guide, found)?;
            push_blocks(right, extra, has_guide, found)
        }
        QueryNode::Except(left, right) => {
            push_blocks(left, extra, has_guide, found)?;
            push_blocks(right, extra, true, found)
        }
    }
}

fn push_copies(alloc: Global, more: &[Access], found: &mut List<Access>) -> Result<(), NoMemory>
    ensures { OnOk result (found.new ≡ found.old ++ more.now) }
{
    for access in more {
        found.push(access.copy(alloc)?)?;
    }
    Ok(())
}

/// Some constraints followed by others, all of them copied.
pub fn joined(
    alloc: Global,
    accesses: &List<Access>,
    more: &[Access],
) -> Result<List<Access>, NoMemory>
    ensures { IfOk result (λ all. all ≡ accesses.now ++ more.now) }
{
    let mut all = accesses.copy(alloc)?;
    push_copies(alloc, more, &mut all)?;
    Ok(all)
}

/// Some constraints followed by those of several lists, all of them copied.
pub fn joined_all(
    alloc: Global,
    accesses: &List<Access>,
    extra: &[List<Access>],
) -> Result<List<Access>, NoMemory>
    ensures { IfOk result (λ all. all ≡ accesses.now ++ flat_map (λ more. more) extra.now) }
{
    let mut all = accesses.copy(alloc)?;
    for more in extra {
        push_copies(alloc, more.as_slice(), &mut all)?;
    }
    Ok(all)
}
