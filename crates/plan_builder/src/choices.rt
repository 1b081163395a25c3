// The best of the uses that may come next.
ghost use Rattle.std.specs.Prelude.{◌≡◌, filter, map, option_map};
ghost use Rattle.beas_core.specs.Derivations.{least_bound};
ghost use Rattle.attribute_closure.specs.Uses.{as_use};
ghost use Rattle.plan_builder.specs.Choices.{is_better, may_add, may_serve};

use crate::sets::adds;
use attribute_closure::{UseAt, holds_columns, serves};
use beas_core::Normal;

fn beats(found: &UseAt<'_>, best: &Option<UseAt<'_>>) -> bool
    ensures { result ≡ is_better (as_use found.now) (option_map as_use best.now) }
{
    match best {
        None => true,
        Some(other) => found.access.bound < other.access.bound,
    }
}

fn adds_now(block: &Normal, set: &[bool], found: &UseAt<'_>) -> bool
    ensures { result ≡ may_add block.now set.now (as_use found.now) }
{
    holds_columns(block, set, found.atom, found.access.key.as_slice()) && adds(block, set, found)
}

fn serves_now(block: &Normal, set: &[bool], atom: u16, found: &UseAt<'_>) -> bool
    ensures { result ≡ may_serve block.now set.now atom (as_use found.now) }
{
    if found.atom == atom {
        serves(block, set, found)
    } else {
        false
    }
}

/// The use of least bound whose key a set holds and that adds a class to it, the first of those where several have it.
pub fn best_adding<'a>(block: &Normal, uses: &[UseAt<'a>], set: &[bool]) -> Option<UseAt<'a>>
    ensures { option_map as_use result ≡ least_bound (filter (may_add block.now set.now) (map as_use uses.now)) }
{
    let mut best: Option<UseAt<'a>> = None;
    for found in uses {
        // As values both tests are proved once, as in `best_serving`.
        let may = adds_now(block, set, found);
        let better = beats(found, &best);
        if may & better {
            best = Some(*found);
        }
    }
    best
}

/// The use of least bound that serves an atom, the first of those where several have it.
pub fn best_serving<'a>(
    block: &Normal,
    uses: &[UseAt<'a>],
    set: &[bool],
    atom: u16,
) -> Option<UseAt<'a>>
    ensures { option_map as_use result ≡ least_bound (filter (may_serve block.now set.now atom) (map as_use uses.now)) }
{
    let mut best: Option<UseAt<'a>> = None;
    for found in uses {
        // Neither test takes long or fails, and as values they are proved once, not once on each way through `&&`.
        let may = serves_now(block, set, atom, found);
        let better = beats(found, &best);
        if may & better {
            best = Some(*found);
        }
    }
    best
}
