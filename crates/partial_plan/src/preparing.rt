// What is announced of a query over the live constraints and scans.
ghost use Rattle.std.specs.Prelude.{◌≡◌, ◌<◌, ◌^◌, IfOk, length};
ghost use Rattle.beas_core.specs.declared.schema.TableId.{TableId};
ghost use Rattle.beas_core.specs.Results.{Gives};
ghost use Rattle.beas_core.specs.Shapes.{QueryIsWellFormed};
ghost use Rattle.beas_core.specs.Trees.{blocks_of};
ghost use Rattle.beas_core.specs.Types.{TableRows};
ghost use Rattle.catalogue.specs.Queries.{QueryIsOver, RowsAreWide};
ghost use Rattle.partial_plan.specs.ScanPlans.{ScanPlanFits, scan_preparation};
ghost use Rattle.partial_plan.specs.Scans.{rows_of_tables, sizes_of_tables};

use crate::lists::scan_lists;
use crate::plan::ScanPlan;
use crate::used::plan_over_lists;
use beas_core::{Fail, List, Query};
use catalogue::{Catalogue, recall_soundness};
use plan_builder::prepare_over;
use row_store::Rows;
use std::alloc::Global;

/// A query with all that is announced of it where tables may be scanned. While a block isn't covered, the atom that its
/// reason names gets a scan constraint, with the name `scan` and ids from 65,536 on in the order in which they are made.
/// There is one `Rows` for each table, in order of ids; their lengths alone are used. `TooLarge` exactly where the
/// announced number, with the rows of the scanned tables, passes 2^128 - 1; there is no other refusal.
pub fn scan_prepare(
    alloc: Global,
    catalogue: &Catalogue,
    rows: &List<Rows>,
    query: Query,
) -> Result<ScanPlan, Fail>
    requires well_formed { QueryIsWellFormed query }
    requires over { QueryIsOver catalogue.now query }
    requires few { length (blocks_of query) < 2 ^ 27 }
    requires rows { length rows.now ≡ length catalogue.now.tables }
    ensures prepared { Gives result (scan_preparation catalogue.now (sizes_of_tables rows.now) query) }
    ensures fits { IfOk result (λ plan. (found : TableRows) → RowsAreWide catalogue.now found
        → ((id : TableId) → found id ≡ rows_of_tables rows.now id)
        → ScanPlanFits catalogue.now.accesses found rows.now plan) }
{
    // No id stands twice among the live constraints, and all are below those of scans.
    recall_soundness(catalogue);
    let lists = scan_lists(alloc, catalogue, rows.as_slice(), &query)?;
    let prepared = prepare_over(alloc, catalogue, &lists, query)?;
    plan_over_lists(alloc, rows.as_slice(), lists.as_slice(), prepared)
}
