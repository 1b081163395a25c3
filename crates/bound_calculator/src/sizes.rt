// The size of a query: how many rows it answers at most.
ghost use Rattle.std.specs.Prelude.{◌≡◌, ◌+◌, ◌≤◌, ◌<◌, ◌^◌, MatchOption, MatchResult, length};
ghost use Rattle.beas_core.specs.declared.refusal.Refusal.TheVariants.{TooLarge};
ghost use Rattle.beas_core.specs.Guiding.{after};
ghost use Rattle.beas_core.specs.Trees.{blocks_of};
ghost use Rattle.bound_calculator.specs.QuerySizes.{size_in};

use beas_core::{Query, QueryNode, Refusal, Sizes};

/// The size of a part of a query, and the number of the first block after it.
#[derive(Clone, Copy)]
struct PartSize {
    size: u128,
    next: usize,
}

// The number of the first block after a part whose first block has this number.
fn number_after(query: &Query, first: usize) -> usize
    requires { first + length (blocks_of query.now) < 2 ^ 64 }
    ensures { result ≡ after first query.now }
{
    match &query.node {
        QueryNode::Block(_) => first + 1,
        QueryNode::Union(left, right) | QueryNode::Except(left, right) => {
            number_after(right, number_after(left, first))
        }
    }
}

// Nothing where the size passes 2^128 - 1.
fn size_from(query: &Query, sizes: &[Sizes], first: usize) -> Option<PartSize>
    requires { first + length (blocks_of query.now) ≤ length sizes.now }
    ensures { MatchOption result (2 ^ 128 ≤ size_in sizes.now first query.now)
        (λ part. part ≡ record { size = size_in sizes.now first query.now; next = after first query.now }) }
{
    match &query.node {
        QueryNode::Block(_) => Some(PartSize {
            size: sizes[first].last,
            next: first + 1,
        }),
        QueryNode::Union(left, right) => {
            let one = size_from(left, sizes, first)?;
            let other = size_from(right, sizes, one.next)?;
            let size = one.size.checked_add(other.size)?;
            Some(PartSize {
                size,
                next: other.next,
            })
        }
        QueryNode::Except(left, right) => {
            let one = size_from(left, sizes, first)?;
            Some(PartSize {
                size: one.size,
                next: number_after(right, one.next),
            })
        }
    }
}

/// How many rows a query answers at most, whose blocks from left to right have these sizes: those of a block are as
/// many as its last step leaves valuations, those of an EXCEPT are among its left side's. `TooLarge` exactly where
/// they pass 2^128 - 1. It takes no memory.
pub fn size(query: &Query, sizes: &[Sizes]) -> Result<u128, Refusal>
    requires { length sizes.now ≡ length (blocks_of query.now) }
    ensures { MatchResult result
        (λ size. size ≡ size_in sizes.now 0 query.now)
        (λ why. (why ≡ TooLarge) × (2 ^ 128 ≤ size_in sizes.now 0 query.now)) }
{
    match size_from(query, sizes, 0) {
        Some(part) => Ok(part.size),
        None => Err(Refusal::TooLarge),
    }
}
