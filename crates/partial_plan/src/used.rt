// Of the scan constraints those that stand in a step, and what it takes to read their tables.
ghost use Rattle.std.specs.Prelude.{◌≡◌, ◌≤◌, ◌<◌, ◌==◌, ◌+◌, ◌++◌, ◌^◌, All, IfOk, MatchResult, OnOk, filter, length};
ghost use Rattle.std.specs.List.{list_any};
ghost use Rattle.beas_core.specs.declared.refusal.Refusal.TheVariants.{TooLarge};
ghost use Rattle.beas_core.specs.Results.{Gives};
ghost use Rattle.partial_plan.specs.ScanPlans.{is_used, plan_over_lists, unless_too_large, used_scans};
ghost use Rattle.partial_plan.specs.Scans.{scanned_rows, sizes_of_tables};

use crate::plan::ScanPlan;
use beas_core::{
    Access, AccessId, DStep, Derivation, Duplicate, Fail, List, NoMemory, Prepared, Refusal,
};
use row_store::Rows;
use std::alloc::Global;

fn has_step(steps: &[DStep], id: AccessId) -> bool
    ensures { result ≡ list_any (λ s. s.access.0 == id.0) steps.now }
{
    for step in steps {
        if step.access.0 == id.0 {
            return true;
        }
    }
    false
}

// Whether some step is by this constraint.
fn is_used(plans: &[Derivation], scan: &Access) -> bool
    ensures { result ≡ is_used plans.now scan.now }
{
    for plan in plans {
        if has_step(plan.steps.as_slice(), scan.id) {
            return true;
        }
    }
    false
}

fn push_used(
    alloc: Global,
    list: &[Access],
    plans: &[Derivation],
    scans: &mut List<Access>,
) -> Result<(), NoMemory>
    ensures { OnOk result (scans.new ≡ scans.old ++ filter (is_used plans.now) list.now) }
{
    for scan in list {
        if is_used(plans, scan) {
            scans.push(scan.copy(alloc)?)?;
        }
    }
    Ok(())
}

fn used_scans(
    alloc: Global,
    lists: &[List<Access>],
    plans: &[Derivation],
) -> Result<List<Access>, NoMemory>
    ensures { IfOk result (λ scans. scans ≡ used_scans lists.now plans.now) }
{
    let mut scans = List::new(alloc);
    for list in lists {
        push_used(alloc, list.as_slice(), plans, &mut scans)?;
    }
    Ok(scans)
}

// A number with the rows of the scans' tables.
fn with_scanned(tables: &[Rows], scans: &[Access], number: u128) -> Result<u128, Refusal>
    requires { All (λ scan. scan.table.0 < length tables.now) scans.now }
    ensures { MatchResult result
        (λ whole. whole ≡ scanned_rows (sizes_of_tables tables.now) scans.now + number)
        (λ why. (why ≡ TooLarge) × (2 ^ 128 ≤ scanned_rows (sizes_of_tables tables.now) scans.now + number)) }
{
    let mut whole = number;
    for scan in scans {
        let rows = tables[scan.table.0 as usize].len();
        match whole.checked_add(u128::from(rows)) {
            Some(more) => whole = more,
            None => return Err(Refusal::TooLarge),
        }
    }
    Ok(whole)
}

/// The plan of a query that was prepared over lists of scan constraints. Those that no step uses are left out. `TooLarge`
/// exactly where the number, with the rows of the scanned tables, passes 2^128 - 1.
pub fn plan_over_lists(
    alloc: Global,
    tables: &[Rows],
    lists: &[List<Access>],
    prepared: Prepared,
) -> Result<ScanPlan, Fail>
    requires { All (λ scan. scan.table.0 < length tables.now) (used_scans lists.now prepared.derivations) }
    ensures { Gives result (unless_too_large (plan_over_lists (sizes_of_tables tables.now) lists.now prepared)) }
{
    let scans = used_scans(alloc, lists, prepared.derivations.as_slice())?;
    let bound = with_scanned(tables, scans.as_slice(), prepared.bound)?;
    Ok(ScanPlan {
        prepared,
        scans,
        bound,
    })
}
