// What statements are decided by, beside the database.
ghost use Rattle.std.specs.Prelude.{◌≡◌};
ghost use Rattle.session.specs.Announced.{unless_above};

use beas_core::{Limits, Refusal};

/// The limits, the budget, and whether the report of a query shows its plan.
#[derive(Drop)]
pub struct Settings<'a> {
    pub limits: &'a Limits,
    pub budget: Option<u64>,
    pub explain: bool,
}

/// What is announced with this number, unless it is above the budget.
pub fn refuse_above<T: Drop>(budget: Option<u64>, bound: u128, announced: T) -> Result<T, Refusal>
    ensures { result ≡ unless_above budget bound announced }
{
    match budget {
        Some(budget) if bound > u128::from(budget) => {
            drop(announced);
            Err(Refusal::OverBudget { bound, budget })
        }
        _ => Ok(announced),
    }
}
