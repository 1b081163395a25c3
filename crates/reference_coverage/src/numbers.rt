// The announced number of a derivation. Nothing stands for a number past 2^128 - 1.
ghost use Rattle.std.specs.Prelude.{◌≡◌, ◌+◌, ◌*◌, ◌≤◌, ◌^◌, ℕ, MatchOption};
ghost use Rattle.beas_core.specs.Derivations.{access_in};
ghost use Rattle.beas_core.specs.Numbers.{announced_from, last_size, size_after};
ghost use Rattle.reference_coverage.specs.Counts.{Counts};

use crate::access_uses::access_with;
use beas_core::{Access, AccessId, DStep};

#[tactic(auto, unfolding(beas_core::specs::Derivations::access_in))]
fn bound_of(accesses: &[Access], id: AccessId) -> u32
    ensures { result ≡ (access_in accesses.now id).bound }
{
    match access_with(accesses, id) {
        Some(access) => access.bound,
        None => 0,
    }
}

/// A number and another.
pub fn sum(left: Option<u128>, right: Option<u128>) -> Option<u128>
    ensures { (m n : ℕ) → Counts left m → Counts right n → Counts result (m + n) }
{
    left?.checked_add(right?)
}

/// A number so many times.
fn times(number: Option<u128>, bound: u32) -> Option<u128>
    ensures { (n : ℕ) → Counts number n → Counts result (n * bound) }
{
    if bound == 0 {
        return Some(0);
    }
    number?.checked_mul(u128::from(bound))
}

fn cost_of(accesses: &[Access], size: Option<u128>, step: &DStep) -> Option<u128>
    ensures { (n : ℕ) → Counts size n → Counts result (n * (access_in accesses.now step.now.access).bound) }
{
    times(size, bound_of(accesses, step.access))
}

fn size_after(accesses: &[Access], size: Option<u128>, step: &DStep) -> Option<u128>
    ensures { (n : ℕ) → Counts size n → Counts result (size_after accesses.now n step.now) }
{
    if step.adds {
        cost_of(accesses, size, step)
    } else {
        size
    }
}

/// The reads of the steps at most, where so many valuations stand before them.
pub fn announced_from(accesses: &[Access], size: Option<u128>, steps: &[DStep]) -> Option<u128>
    ensures { (n : ℕ) → Counts size n → Counts result (announced_from accesses.now n steps.now) }
{
    match steps {
        [] => Some(0),
        [first, rest @ ..] => {
            let cost = cost_of(accesses, size, first);
            let later = announced_from(accesses, size_after(accesses, size, first), rest);
            sum(cost, later)
        }
    }
}

/// The valuations after the steps at most, where so many stand before them.
pub fn last_size(accesses: &[Access], size: Option<u128>, steps: &[DStep]) -> Option<u128>
    ensures { (n : ℕ) → Counts size n → Counts result (last_size accesses.now n steps.now) }
{
    match steps {
        [] => size,
        [first, rest @ ..] => last_size(accesses, size_after(accesses, size, first), rest),
    }
}

/// The reads of the steps at most, where `size` valuations stand before them; nothing where that passes 2^128 - 1.
pub fn announced_number(accesses: &[Access], size: u128, steps: &[DStep]) -> Option<u128>
    ensures { MatchOption result (2 ^ 128 ≤ announced_from accesses.now size steps.now)
        (λ n. n ≡ announced_from accesses.now size steps.now) }
{
    announced_from(accesses, Some(size), steps)
}
