// Constraints that are made after a query was prepared.
ghost use Rattle.beas_core.specs.Fits.{Fits};
ghost use Rattle.catalogue.specs.Database.{rows_at};
ghost use Rattle.session.specs.Stores.{database_in};

use beas_core::{AccessId, AccessSpec, Fail, Limits, NoMemory, Prepared, Steps};
use catalogue::recall_soundness;
use session::Store;
use std::alloc::Global;
use std::sync::ledger::Ledger;

/// Whether a constraint was made.
fn is_made(made: &Result<AccessId, Fail>) -> Result<bool, NoMemory> {
    match made {
        Ok(_) => Ok(true),
        Err(Fail::Refused(_)) => Ok(false),
        Err(Fail::NoMemory) => Err(NoMemory),
    }
}

/// Makes a constraint where it fetches a column and holds, and says whether it does. A prepared query that fitted the
/// store before fits it after.
fn add_constraint<L: Ledger>(
    alloc: Global,
    guarded: &mut Store,
    spec: &AccessSpec,
    prepared: &Prepared,
    steps: &mut Steps<L>,
) -> Result<bool, NoMemory>
    requires { Fits guarded.old.catalogue.accesses (rows_at (database_in guarded.old)) prepared.now }
    ensures { Fits guarded.new.catalogue.accesses (rows_at (database_in guarded.new)) prepared.now }
{
    if spec.fetched.is_empty() {
        return Ok(false);
    }
    let made = guarded.create_access(alloc, &Limits::standard(), spec, steps);
    // No two constraints have one id, so those that were there before are the same by their ids.
    recall_soundness(&guarded.catalogue);
    let found = is_made(&made);
    drop(made);
    found
}

/// Makes constraints, and says how many were made. A prepared query that fitted the store before fits it after.
pub fn add_constraints<L: Ledger>(
    alloc: Global,
    guarded: &mut Store,
    specs: &[AccessSpec],
    prepared: &Prepared,
    steps: &mut Steps<L>,
) -> Result<u32, NoMemory>
    requires { Fits guarded.old.catalogue.accesses (rows_at (database_in guarded.old)) prepared.now }
    ensures { Fits guarded.new.catalogue.accesses (rows_at (database_in guarded.new)) prepared.now }
{
    let mut made: u32 = 0;
    for spec in specs {
        let is_made = add_constraint(alloc, guarded, spec, prepared, steps)?;
        made = made.saturating_add(u32::from(is_made));
    }
    Ok(made)
}
