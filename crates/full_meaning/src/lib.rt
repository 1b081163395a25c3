//! The full answer of a query over the store, by reading all of its rows. It serves to compare: answers of plans are
//! found through the indexes. `plain_store` makes a store of plain indexes with the rows of another store.
#![tactic(auto)]

mod copies;
mod stores;

ghost use Rattle.std.specs.Prelude.{◌≡◌, ◌+◌, ◌≤◌, length, sum_by, IfOk, OnOk};
ghost use Rattle.beas_core.specs.Full.{full_of};
ghost use Rattle.catalogue.specs.Database.{rows_at};
ghost use Rattle.update_guard.specs.Stored.{database_in};

use crate::copies::copied_tables;
use beas_core::{List, NoMemory, Query, Row, Steps};
use reference_evaluation::full_of;
use std::alloc::Global;
use std::sync::ledger::Ledger;
pub use stores::plain_store;
use update_guard::Guarded;

/// The full answer of a query over the rows of all tables, in order. It reads each row of the store once, whether or
/// not the query names its table; where it runs out of memory it has read no more than that.
pub fn evaluate<L: Ledger>(
    alloc: Global,
    guarded: &Guarded,
    query: &Query,
    steps: &mut Steps<L>,
) -> Result<List<Row>, NoMemory>
    ensures answer { IfOk result (λ answer. answer ≡ full_of (rows_at (database_in guarded.now)) query.now) }
    ensures cost { OnOk result (steps.new ≡ steps.old + sum_by length guarded.now.rows) }
    ensures at_most { steps.new ≤ steps.old + sum_by length guarded.now.rows }
    ensures no_fewer { steps.old ≤ steps.new }
{
    let tables = copied_tables(alloc, guarded.rows.as_slice(), steps)?;
    let answer = full_of(alloc, tables.as_slice(), query)?;
    Ok(answer)
}
