// The indexes of scans.
ghost use Rattle.std.specs.Prelude.{◌≡◌, ◌+◌, ◌<◌, ◌≤◌, [], All, IfOk, IfSome, IsTrue, OnOk, length, slice_index_or};
ghost use Rattle.access_index.specs.Index.{IsIndexOf};
ghost use Rattle.partial_plan.specs.Scans.{AreBuilt, HaveSameColumns, IsAlike, rows_of_tables, scanned_rows, sizes_of_tables};

use crate::sharing::ScanIndex;
use attribute_closure::are_same_columns;
use beas_core::{Access, List, NoMemory, Steps};
use row_store::Rows;
use std::alloc::Global;
use std::sync::ledger::Ledger;

fn have_same_columns(one: &Access, other: &Access) -> bool
    ensures { IsTrue result → HaveSameColumns one.now other.now }
{
    are_same_columns(one.key.as_slice(), other.key.as_slice())
        && are_same_columns(one.fetched.as_slice(), other.fetched.as_slice())
}

// An index of the same columns of the same table.
fn index_alike<'a>(indexes: &'a [ScanIndex], scan: &Access) -> Option<&'a ScanIndex>
    ensures { IfSome result (λ found. IsAlike indexes.now scan.now found.now) }
{
    for index in indexes {
        let access = index.access();
        if access.table.0 == scan.table.0 && have_same_columns(access, scan) {
            return Some(index);
        }
    }
    None
}

// The index of a scan: its own, or what an earlier one of the same columns has.
fn index_for<L: Ledger>(
    alloc: Global,
    tables: &[Rows],
    indexes: &[ScanIndex],
    scan: &Access,
    steps: &mut Steps<L>,
) -> Result<ScanIndex, NoMemory>
    requires table { scan.now.table.0 < length tables.now }
    requires indexes { All (λ index. IsIndexOf index (rows_of_tables tables.now index.access.table)) indexes.now }
    ensures access { IfOk result (λ index. index.access ≡ scan.now) }
    ensures index { IfOk result (λ index. IsIndexOf index (slice_index_or tables.now scan.now.table.0 [])) }
    ensures cost { OnOk result (steps.new ≡ steps.old + sizes_of_tables tables.now scan.now.table) }
    ensures at_most { steps.new ≤ steps.old + sizes_of_tables tables.now scan.now.table }
    ensures no_fewer { steps.old ≤ steps.new }
{
    let rows = &tables[scan.table.0 as usize];
    let Some(alike) = index_alike(indexes, scan) else {
        return ScanIndex::build(alloc, scan, rows, steps);
    };
    let index = alike.share(alloc, scan)?;
    // The rows count for each scan, though an index that is shared has read them once.
    steps.raise(rows.len());
    Ok(index)
}

/// An index for each scan, in their order, over the rows of its table. Scans of the same columns share one. Each row of
/// a table counts once for each scan on it.
pub fn build_indexes<L: Ledger>(
    alloc: Global,
    tables: &[Rows],
    scans: &[Access],
    steps: &mut Steps<L>,
) -> Result<List<ScanIndex>, NoMemory>
    requires { All (λ scan. scan.table.0 < length tables.now) scans.now }
    ensures built { IfOk result (AreBuilt tables.now scans.now) }
    ensures cost { OnOk result (steps.new ≡ steps.old + scanned_rows (sizes_of_tables tables.now) scans.now) }
    ensures at_most { steps.new ≤ steps.old + scanned_rows (sizes_of_tables tables.now) scans.now }
    ensures no_fewer { steps.old ≤ steps.new }
{
    let mut indexes = List::new(alloc);
    for scan in scans {
        indexes.push(index_for(alloc, tables, indexes.as_slice(), scan, steps)?)?;
    }
    Ok(indexes)
}
