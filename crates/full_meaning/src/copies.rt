// Copies of the rows of tables, each row read once.
ghost use Rattle.std.specs.Prelude.{◌≡◌, ◌+◌, ◌≤◌, length, sum_by, IfOk, OnOk};

use beas_core::{List, NoMemory, Row, Steps, copy_row};
use row_store::Rows;
use std::alloc::Global;
use std::sync::ledger::Ledger;

/// The rows of a table. Each is read once.
pub fn copied_rows<L: Ledger>(
    alloc: Global,
    rows: &Rows,
    steps: &mut Steps<L>,
) -> Result<List<Row>, NoMemory>
    ensures rows { IfOk result (λ copies. copies ≡ rows.now) }
    ensures cost { OnOk result (steps.new ≡ steps.old + length rows.now) }
    ensures at_most { steps.new ≤ steps.old + length rows.now }
    ensures no_fewer { steps.old ≤ steps.new }
{
    let mut copies = List::new(alloc);
    for i in 0..rows.len() {
        let copy = copy_row(alloc, rows.row(i, steps))?;
        copies.push(copy)?;
    }
    Ok(copies)
}

/// The rows of some tables. Each is read once.
pub fn copied_tables<L: Ledger>(
    alloc: Global,
    tables: &[Rows],
    steps: &mut Steps<L>,
) -> Result<List<List<Row>>, NoMemory>
    ensures tables { IfOk result (λ copies. copies ≡ tables.now) }
    ensures cost { OnOk result (steps.new ≡ steps.old + sum_by length tables.now) }
    ensures at_most { steps.new ≤ steps.old + sum_by length tables.now }
    ensures no_fewer { steps.old ≤ steps.new }
{
    let mut copies = List::new(alloc);
    for rows in tables {
        let copy = copied_rows(alloc, rows, steps)?;
        copies.push(copy)?;
    }
    Ok(copies)
}
