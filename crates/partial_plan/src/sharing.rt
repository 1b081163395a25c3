// Indexes that scans share.
ghost use Rattle.std.specs.Prelude.{◌≡◌, ◌+◌, ◌≤◌, ◌<◌, List, [], IfOk, OnOk, IsTrue, length, max, slice_index_or};
ghost use Rattle.beas_core.specs.declared.value.Value.{Value};
ghost use Rattle.beas_core.specs.Groups.{group_of, has_column, member_columns, value_in};
ghost use Rattle.access_index.specs.Index.{IsIndexOf, members_at, stands_at};
ghost use Rattle.partial_plan.specs.Scans.{HaveSameColumns, index_under};

use access_index::AccessIndex;
use beas_core::{Access, ColumnId, Duplicate, Hits, NoMemory, Steps, Value};
use row_store::Rows;
use std::alloc::Global;
use std::marker::Model;
use std::rc::Rc;
use std::sync::ledger::Ledger;

/// The index of a scan, whose tuples other scans may share.
#[derive(Drop)]
pub struct ScanIndex {
    access: Access,
    index: Rc<AccessIndex>,
}

impl Model for ScanIndex {
    ghost use Rattle.access_index.specs.Index.{Index};
    ghost use Rattle.partial_plan.specs.Scans.{HaveSameColumns, index_under};

    ghost Value = { Index };

    ghost view = { λ s. index_under s.access s.index.value };

    ghost invariant = { λ s. HaveSameColumns s.index.value.access s.access };
}

// An index that others may share. It reads each row once.
fn shared_index<L: Ledger>(
    alloc: Global,
    scan: &Access,
    rows: &Rows,
    steps: &mut Steps<L>,
) -> Result<Rc<AccessIndex>, NoMemory>
    ensures index { IfOk result (λ index. IsIndexOf index.value rows.now) }
    ensures access { IfOk result (λ index. index.value.access ≡ scan.now) }
    ensures cost { OnOk result (steps.new ≡ steps.old + length rows.now) }
    ensures at_most { steps.new ≤ steps.old + length rows.now }
    ensures no_fewer { steps.old ≤ steps.new }
{
    let index = AccessIndex::build(alloc, scan.copy(alloc)?, rows, steps)?;
    Ok(Rc::new(alloc, index)?)
}

impl ScanIndex {
    /// An index of its own. It reads each row once.
    pub fn build<L: Ledger>(
        alloc: Global,
        scan: &Access,
        rows: &Rows,
        steps: &mut Steps<L>,
    ) -> Result<ScanIndex, NoMemory>
        ensures index { IfOk result (λ index. IsIndexOf index rows.now) }
        ensures access { IfOk result (λ index. index.access ≡ scan.now) }
        ensures cost { OnOk result (steps.new ≡ steps.old + length rows.now) }
        ensures at_most { steps.new ≤ steps.old + length rows.now }
        ensures no_fewer { steps.old ≤ steps.new }
    {
        let access = scan.copy(alloc)?;
        match shared_index(alloc, scan, rows, steps) {
            Ok(index) => Ok(ScanIndex { access, index }),
            Err(NoMemory) => {
                drop(access);
                Err(NoMemory)
            }
        }
    }

    /// The index of another scan of the same columns. Both share the tuples.
    pub fn share(&self, alloc: Global, scan: &Access) -> Result<ScanIndex, NoMemory>
        requires { HaveSameColumns self.now.access scan.now }
        ensures { IfOk result (λ index. index ≡ index_under scan.now self.now) }
    {
        Ok(ScanIndex {
            access: scan.copy(alloc)?,
            index: self.index.clone()?,
        })
    }

    pub fn access(&self) -> &Access
        ensures { result.now ≡ self.now.access }
    {
        &self.access
    }

    /// The group of a key, counted: the greater of 1 and the number of its tuples.
    pub fn probe<L: Ledger>(&self, key: &[Value], steps: &mut Steps<L>) -> Hits
        requires { length key.now ≡ length self.now.access.key }
        ensures access { result.access ≡ self.now.access.id }
        ensures members { (rows : List (List Value)) → IsIndexOf self.now rows
            → members_at self.now result ≡ group_of rows self.now.access key.now }
        ensures len { result.len ≡ length (members_at self.now result) }
        ensures stands { stands_at self.now result }
        ensures cost { steps.new ≡ steps.old + max 1 result.len }
    {
        self.index.probe_as(self.access.id, key, steps)
    }

    /// A column of a tuple that a probe found and counted.
    pub fn value(&self, hits: &Hits, i: u32, column: ColumnId) -> &Value
        requires stands { stands_at self.now hits.now }
        requires member { i < hits.now.len }
        requires column { IsTrue (has_column (member_columns self.now.access) column) }
        ensures { result.now
            ≡ value_in (member_columns self.now.access) (slice_index_or (members_at self.now hits.now) i []) column }
    {
        self.index.value(hits, i, column)
    }
}
