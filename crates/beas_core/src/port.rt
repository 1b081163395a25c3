// The index that plans read through, and what a probe finds.
ghost use Rattle.std.specs.Prelude.{◌≡◌, ◌+◌, ◌<◌, ◌≤◌, List, length, max, IsTrue, slice_index_or, []};
ghost use Rattle.beas_core.specs.declared.schema.Access.{Access as Constraint};
ghost use Rattle.beas_core.specs.Types.{Row, TableRows};
ghost use Rattle.beas_core.specs.Found.{Found};
ghost use Rattle.beas_core.specs.Groups.{Holds, group_of, member_columns, has_column, value_in};
ghost use Rattle.beas_core.specs.Derivations.{access_in, is_live};

use crate::schema::{Access, AccessId, ColumnId};
use crate::steps::Steps;
use crate::value::Value;
use std::marker::Model;
use std::sync::ledger::Ledger;

/// What a probe found: `len` tuples of a constraint's index, from a place on. Only `counted` makes one.
#[derive(Clone, Copy, Debug)]
pub struct Hits {
    access: AccessId,
    place: u64,
    len: u32,
}

impl Model for Hits {
    ghost use Rattle.beas_core.specs.Found.{Found};

    ghost Value = { Found };

    ghost view = { λ h. record { access = h.access; place = h.place; len = h.len } };

    ghost inverse = { λ f. record { access = f.access; place = f.place; len = f.len } };
}

impl Hits {
    /// What a probe found, counted: a probe that finds nothing counts as one read.
    pub fn counted<L: Ledger>(access: AccessId, place: u64, len: u32, steps: &mut Steps<L>) -> Hits
        ensures access { result.access ≡ access }
        ensures place { result.place ≡ place }
        ensures len { result.len ≡ len }
        ensures cost { steps.new ≡ steps.old + max 1 len }
    {
        steps.raise(len.max(1));
        Hits { access, place, len }
    }

    pub fn access(&self) -> AccessId
        ensures { result ≡ self.now.access }
    {
        self.access
    }

    pub fn place(&self) -> u64
        ensures { result ≡ self.now.place }
    {
        self.place
    }

    pub fn len(&self) -> u32
        ensures { result ≡ self.now.len }
    {
        self.len
    }
}

/// Every index that a plan may use, and nothing else of the store. Its constraints hold over its rows.
/// None of its calls takes memory.
pub trait AccessPort {
    /// The rows of each table.
    ghost rows: { Self → TableRows };

    /// The live constraints, in order of creation.
    ghost accesses: { Self → List Constraint };

    /// The tuples that hits stand for, in value order over the key and then the fetched columns.
    ghost members: { Self → Found → List Row };

    /// Whether hits stand for a constraint and a key in the port as it is.
    ghost stands: { Self → Found → Type 0 };

    /// The constraint with this id. It holds over its table's rows.
    fn access(&self, id: AccessId) -> &Access
        requires { IsTrue (is_live (accesses self.now) id) }
        ensures access { result.now ≡ access_in (accesses self.now) id }
        ensures holds { Holds (rows self.now result.now.table) result.now }
        ensures bound { 1 ≤ result.now.bound };

    /// The group of a key, counted: the greater of 1 and the number of its tuples.
    fn probe<L: Ledger>(&self, id: AccessId, key: &[Value], steps: &mut Steps<L>) -> Hits
        requires live { IsTrue (is_live (accesses self.now) id) }
        requires width { length key.now ≡ length (access_in (accesses self.now) id).key }
        ensures access { result.access ≡ id }
        ensures members { members self.now result
            ≡ group_of (rows self.now (access_in (accesses self.now) id).table) (access_in (accesses self.now) id)
            key.now }
        ensures len { result.len ≡ length (members self.now result) }
        ensures stands { stands self.now result }
        ensures bounded { result.len ≤ (access_in (accesses self.now) id).bound }
        ensures cost { steps.new ≡ steps.old + max 1 result.len };

    /// A column of a tuple that a probe found and counted.
    fn value(&self, hits: &Hits, i: u32, column: ColumnId) -> &Value
        requires live { IsTrue (is_live (accesses self.now) hits.now.access) }
        requires stands { stands self.now hits.now }
        requires member { i < hits.now.len }
        requires column { IsTrue (has_column (member_columns (access_in (accesses self.now) hits.now.access)) column) }
        ensures { result.now
            ≡ value_in (member_columns (access_in (accesses self.now) hits.now.access))
            (slice_index_or (members self.now hits.now) i []) column };
}
