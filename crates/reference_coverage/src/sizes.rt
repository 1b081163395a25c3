// How many rows a query answers at most, and how many reads it takes. Nothing stands for a number past 2^128 - 1.
ghost use Rattle.std.specs.Prelude.{◌≡◌, ◌<◌, ◌≤◌, ◌+◌, ◌^◌, ℕ, length, MatchOption};
ghost use Rattle.beas_core.specs.Guiding.{after};
ghost use Rattle.beas_core.specs.Queries.{announced_in, is_guided, plan_of, query_bound, query_size, size_of, start_size};
ghost use Rattle.beas_core.specs.Trees.{blocks_of};
ghost use Rattle.reference_coverage.specs.Counts.{Counts};

use crate::numbers::{announced_from, last_size, sum};
use beas_core::{Access, DStep, Derivation, Query, QueryNode};

/// The plans of a query's blocks from left to right: the constraints that they use, and of each block whether it is
/// guided, and its derivation.
#[derive(Clone, Copy)]
pub struct BlockPlans<'a> {
    pub accesses: &'a [Access],
    pub guided: &'a [bool],
    pub derivations: &'a [Derivation],
}

/// The number of the first block after a query whose first block has this number.
pub fn number_after(query: &Query, first: usize) -> usize
    requires { first + length (blocks_of query.now) < 2 ^ 64 }
    ensures { result ≡ after first query.now }
{
    match &query.node {
        QueryNode::Block(_) => first + 1,
        QueryNode::Union(left, right) | QueryNode::Except(left, right) => {
            number_after(right, number_after(left, first))
        }
    }
}

/// Whether the block with this number is guided.
pub fn is_guided(guided: &[bool], number: usize) -> bool
    ensures { result ≡ is_guided guided.now number }
{
    match guided.get(number) {
        Some(is_guided) => *is_guided,
        None => false,
    }
}

/// The steps of the block with this number.
pub fn steps_of(derivations: &[Derivation], number: usize) -> &[DStep]
    ensures { result.now ≡ (plan_of derivations.now number).steps }
{
    match derivations.get(number) {
        Some(plan) => plan.steps.as_slice(),
        None => &[],
    }
}

/// How many valuations stand before the first step of the block with this number at most, where its guide has so many
/// answers at most.
pub fn start_size(guided: &[bool], number: usize, size: Option<u128>) -> Option<u128>
    ensures { (n : ℕ) → Counts size n → Counts result (start_size guided.now number n) }
{
    if is_guided(guided, number) {
        size
    } else {
        Some(1)
    }
}

/// How many rows a tree answers at most whose first block has this number, where its guide has so many answers at most.
pub fn size_of(plans: &BlockPlans, first: usize, size: Option<u128>, query: &Query) -> Option<u128>
    requires { first + length (blocks_of query.now) < 2 ^ 64 }
    ensures { (n : ℕ) → Counts size n → Counts result (size_of plans.now.accesses.now plans.now.guided.now
        plans.now.derivations.now first n query.now) }
{
    match &query.node {
        QueryNode::Block(_) => last_size(
            plans.accesses,
            start_size(plans.guided, first, size),
            steps_of(plans.derivations, first),
        ),
        QueryNode::Union(left, right) => sum(
            size_of(plans, first, size, left),
            size_of(plans, number_after(left, first), size, right),
        ),
        QueryNode::Except(left, _) => size_of(plans, first, size, left),
    }
}

// How many reads a tree takes at most whose first block has this number, where its guide has so many answers at most.
fn announced_in(plans: &BlockPlans, first: usize, size: Option<u128>, query: &Query) -> Option<u128>
    requires { first + length (blocks_of query.now) < 2 ^ 64 }
    ensures { (n : ℕ) → Counts size n → Counts result (announced_in plans.now.accesses.now plans.now.guided.now
        plans.now.derivations.now first n query.now) }
{
    match &query.node {
        QueryNode::Block(_) => announced_from(
            plans.accesses,
            start_size(plans.guided, first, size),
            steps_of(plans.derivations, first),
        ),
        QueryNode::Union(left, right) => sum(
            announced_in(plans, first, size, left),
            announced_in(plans, number_after(left, first), size, right),
        ),
        QueryNode::Except(left, right) => {
            let guide = size_of(plans, first, size, left);
            sum(
                announced_in(plans, first, size, left),
                announced_in(plans, number_after(left, first), guide, right),
            )
        }
    }
}

/// How many rows a query answers at most; nothing where that passes 2^128 - 1.
pub fn query_size(plans: &BlockPlans, query: &Query) -> Option<u128>
    requires { length plans.now.guided.now ≡ length (blocks_of query.now) }
    ensures { MatchOption result
        (2 ^ 128 ≤ query_size plans.now.accesses.now plans.now.guided.now plans.now.derivations.now query.now)
        (λ n. n ≡ query_size plans.now.accesses.now plans.now.guided.now plans.now.derivations.now query.now) }
{
    size_of(plans, 0, Some(1), query)
}

/// How many reads a query takes at most; nothing where that passes 2^128 - 1.
pub fn query_bound(plans: &BlockPlans, query: &Query) -> Option<u128>
    requires { length plans.now.guided.now ≡ length (blocks_of query.now) }
    ensures { MatchOption result
        (2 ^ 128 ≤ query_bound plans.now.accesses.now plans.now.guided.now plans.now.derivations.now query.now)
        (λ n. n ≡ query_bound plans.now.accesses.now plans.now.guided.now plans.now.derivations.now query.now) }
{
    announced_in(plans, 0, Some(1), query)
}
