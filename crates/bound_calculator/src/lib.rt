//! The announced number: how many reads a derivation takes at most, and how many rows a query answers at most.
#![tactic(auto)]

mod bounds;
mod sizes;

ghost use Rattle.std.specs.Prelude.{◌≡◌, ◌+◌, ◌*◌, ◌≤◌, ◌<◌, ◌^◌, IfSome, MatchOption, MatchResult, sum_by, if◌then◌else◌};
ghost use Rattle.beas_core.specs.declared.refusal.Refusal.TheVariants.{TooLarge};
ghost use Rattle.beas_core.specs.Numbers.{announced_from, last_size};
ghost use Rattle.beas_core.specs.Shapes.{EachIdOnce};
ghost use Rattle.bound_calculator.specs.DerivationSizes.{sizes_of};

use crate::bounds::bound_of;
use beas_core::{Access, Derivation, List, Refusal, Sizes};
pub use bounds::access_with;
pub use sizes::size;

/// The sizes with one more step. Nothing where the reads pass 2^128 - 1.
pub fn with_step(sizes: Sizes, adds: bool, bound: u32) -> Option<Sizes>
    ensures small { IfSome result (λ next. next.reads < 2 ^ 128) }
    ensures sizes { MatchOption result (2 ^ 128 ≤ sizes.reads + sizes.last * bound)
        (λ next. next ≡ record {
          reads = sizes.reads + sizes.last * bound;
          last = if adds then sizes.last * bound else sizes.last;
        }) }
{
    let cost = sizes.last.checked_mul(u128::from(bound))?;
    let reads = sizes.reads.checked_add(cost)?;
    let last = if adds { cost } else { sizes.last };
    Some(Sizes { reads, last })
}

#[tactic(auto, using(crate::proofs::Announced::announced_step, crate::proofs::Announced::last_step, crate::proofs::Announced::announced_end, crate::proofs::Announced::last_end))]
/// The sizes of a derivation before whose first step `first` valuations stand: one where its block is by itself, as
/// many as its guide has answers where it is guided. `TooLarge` exactly where its reads pass 2^128 - 1.
pub fn block_bound(
    derivation: &Derivation,
    accesses: &List<Access>,
    first: u128,
) -> Result<Sizes, Refusal>
    requires { EachIdOnce accesses.now }
    ensures { MatchResult result
        (λ sizes. sizes ≡ sizes_of accesses.now first derivation.now.steps)
        (λ why. (why ≡ TooLarge) × (2 ^ 128 ≤ announced_from accesses.now first derivation.now.steps)) }
{
    let mut sizes = Sizes {
        reads: 0,
        last: first,
    };
    for step in derivation.steps.as_slice() {
        let bound = bound_of(accesses.as_slice(), step.access);
        match with_step(sizes, step.adds, bound) {
            Some(next) => sizes = next,
            None => return Err(Refusal::TooLarge),
        }
    }
    Ok(sizes)
}

/// The reads of some blocks together. `TooLarge` exactly where they pass 2^128 - 1.
pub fn total(sizes: &[Sizes]) -> Result<u128, Refusal>
    ensures { MatchResult result
        (λ reads. reads ≡ sum_by (λ s. s.reads) sizes.now)
        (λ why. (why ≡ TooLarge) × (2 ^ 128 ≤ sum_by (λ s. s.reads) sizes.now)) }
{
    let mut reads: u128 = 0;
    for block in sizes {
        match reads.checked_add(block.reads) {
            Some(sum) => reads = sum,
            None => return Err(Refusal::TooLarge),
        }
    }
    Ok(reads)
}
