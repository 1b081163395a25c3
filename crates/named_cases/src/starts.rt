// How many valuations stand before the first step of each block at most.
ghost use Rattle.std.specs.Prelude.{◌≡◌, ◌<◌, ◌+◌, ◌^◌, length};
ghost use Rattle.beas_core.specs.Trees.{blocks_of};

use beas_core::{NoMemory, Query, QueryNode};
use reference_coverage::{BlockPlans, number_after, size_of, start_size};
use std::alloc::Global;

/// Of each block from left to right how many valuations stand before its first step at most: as many as its guide has
/// answers where it is guided, one where it starts alone. Nothing stands for a number past 2^128 - 1.
pub fn start_sizes(
    alloc: Global,
    plans: &BlockPlans,
    query: &Query,
) -> Result<Vec<Option<u128>>, NoMemory>
    requires { length plans.now.guided.now ≡ length (blocks_of query.now) }
{
    let mut sizes = Vec::new(alloc);
    push_sizes(&mut sizes, plans, 0, Some(1), query)?;
    Ok(sizes)
}

// Adds those of a tree whose first block has this number, where its guide has so many answers at most.
fn push_sizes(
    sizes: &mut Vec<Option<u128>>,
    plans: &BlockPlans,
    first: usize,
    guide: Option<u128>,
    query: &Query,
) -> Result<(), NoMemory>
    requires { first + length (blocks_of query.now) < 2 ^ 64 }
{
    match &query.node {
        QueryNode::Block(_) => {
            sizes.push(start_size(plans.guided, first, guide))?;
            Ok(())
        }
        QueryNode::Union(left, right) => {
            push_sizes(sizes, plans, first, guide, left)?;
            push_sizes(sizes, plans, number_after(left, first), guide, right)
        }
        QueryNode::Except(left, right) => {
            let own = size_of(plans, first, guide, left);
            push_sizes(sizes, plans, first, guide, left)?;
            push_sizes(sizes, plans, number_after(left, first), own, right)
        }
    }
}
