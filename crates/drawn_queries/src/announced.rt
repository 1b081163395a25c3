// What is announced of a query, compared with what the reference programs announce of it.
use beas_core::{Access, DStep, Derivation, NoMemory, Prepared, Refusal};
use reference_evaluation::{Planned, QueryPlans, plan_query};
use std::alloc::Global;

fn is_step(left: &DStep, right: &DStep) -> bool {
    left.atom == right.atom && left.access.0 == right.access.0 && left.adds == right.adds
}

fn is_derivation(left: &Derivation, right: &Derivation) -> bool {
    let left = left.steps.as_slice();
    let right = right.steps.as_slice();
    left.len() == right.len()
        && left
            .iter()
            .zip(right)
            .all(|(one, other)| is_step(one, other))
}

/// Whether the blocks of a prepared query are guided, and have the derivations, as by these plans.
fn are_plans(prepared: &Prepared, plans: &QueryPlans) -> bool {
    let own = prepared.derivations.as_slice();
    let wanted = plans.derivations.as_slice();
    prepared.guided == plans.guided
        && own.len() == wanted.len()
        && own
            .iter()
            .zip(wanted)
            .all(|(one, other)| is_derivation(one, other))
}

/// Whether a query is prepared as the reference programs plan it, with the number that they announce.
pub fn is_prepared_so(prepared: &Prepared, wanted: &Planned) -> bool {
    match wanted {
        Planned::Covered(plans) => {
            are_plans(prepared, plans) && plans.bound == Some(prepared.bound)
        }
        _ => false,
    }
}

/// Whether a query is to be refused so by what the reference programs plan, where the budget is as great as this.
pub fn is_refused_so(why: &Refusal, wanted: &Planned, budget: u64) -> bool {
    match (why, wanted) {
        (Refusal::NotCovered { block, .. }, Planned::Uncovered(found)) => {
            found.block.checked_add(1) == Some(*block as usize)
        }
        (Refusal::TooLarge, Planned::Covered(plans)) => plans.bound.is_none(),
        (Refusal::OverBudget { bound, .. }, Planned::Covered(plans)) => {
            plans.bound == Some(*bound) && *bound > u128::from(budget)
        }
        _ => false,
    }
}

/// Whether the plans of a prepared query are the canonical ones over these constraints.
pub fn is_canonical(
    alloc: Global,
    accesses: &[Access],
    prepared: &Prepared,
) -> Result<bool, NoMemory> {
    match plan_query(alloc, accesses, &prepared.query)? {
        Planned::Covered(plans) => Ok(are_plans(prepared, &plans)),
        _ => Ok(false),
    }
}
