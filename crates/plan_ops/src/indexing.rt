// The tuples of groups, found by the values that they share with valuations.
ghost use Rattle.std.specs.Prelude.{◌≡◌, ◌<◌, ◌≤◌, ◌+◌, ◌++◌, ◌∷◌, [], length, slice_index_or, All, IfOk, OnOk};
ghost use Rattle.beas_core.specs.Derivations.{access_in};
ghost use Rattle.beas_core.specs.Groups.{member_columns};
ghost use Rattle.place_chains.specs.Fitting.{IsRun};
ghost use Rattle.place_chains.specs.TupleOrder.{IsOrder, values_at};
ghost use Rattle.plan_ops.specs.Joins.{HitsAre, IsSharing, IsWithin, joins};
ghost use Rattle.plan_ops.specs.Matching.{AreIndexes, IsIndexed};

use crate::joining::Join;
use crate::matching::{fits, joined_row};
use beas_core::{AccessPort, ColumnId, Hits, NoMemory, Row, Value};
use place_chains::{Fitting, TupleOrder};
use std::alloc::Global;

// Fewer tuples are soon read one after another.
const MANY: u32 = 32;

// The value of a tuple at a place. One past its end is made up, since nothing reaches it.
fn tuple_value<'a, P: AccessPort>(
    port: &'a P,
    columns: &[ColumnId],
    hits: &Hits,
    i: u32,
    place: usize,
    zero: &'a Value,
) -> &'a Value
    requires hits { HitsAre (P.accesses port.now) (P.stands port.now) (P.members port.now) hits.now }
    requires columns { columns.now ≡ member_columns (access_in (P.accesses port.now) hits.now.access) }
    requires member { i < hits.now.len }
    ensures { result.now ≡ slice_index_or (slice_index_or (P.members port.now hits.now) i []) place zero.now }
{
    if place < columns.len() {
        port.value(hits, i, columns[place])
    } else {
        zero
    }
}

// The order of a group's tuples by their values at some places, where it is wanted, the group has many tuples, and there
// are places.
fn index_of<P: AccessPort>(
    alloc: Global,
    port: &P,
    columns: &[ColumnId],
    places: &[usize],
    hits: &Hits,
    wanted: bool,
) -> Result<Option<TupleOrder>, NoMemory>
    requires hits { HitsAre (P.accesses port.now) (P.stands port.now) (P.members port.now) hits.now }
    requires columns { columns.now ≡ member_columns (access_in (P.accesses port.now) hits.now.access) }
    ensures { IfOk result (IsIndexed places.now (P.members port.now hits.now)) }
{
    if !wanted || hits.len() < MANY || places.is_empty() {
        return Ok(None);
    }
    let zero = Value::Int(0);
    let value = |i: usize, place: usize|
        requires hits { HitsAre (P.accesses port.now) (P.stands port.now) (P.members port.now) hits.now }
        requires columns { columns.now ≡ member_columns (access_in (P.accesses port.now) hits.now.access) }
        requires member { i < hits.now.len }
        requires few { i < 4294967296 }
        ensures { result.now ≡ slice_index_or (slice_index_or (P.members port.entry.now hits.entry.now) i []) place zero }
    { tuple_value(port, columns, hits, i as u32, place, &zero) };
    let count = hits.len() as usize;
    Ok(Some(TupleOrder::new(alloc, count, &value, &zero, places)?))
}

/// For each group the order of its tuples by their values at some places, where it is wanted and the tuples are many.
pub fn indexes_of<P: AccessPort>(
    alloc: Global,
    port: &P,
    columns: &[ColumnId],
    places: &[usize],
    groups: &[Hits],
    wanted: bool,
) -> Result<Vec<Option<TupleOrder>>, NoMemory>
    requires hits { All (HitsAre (P.accesses port.now) (P.stands port.now) (P.members port.now)) groups.now }
    requires columns { All (λ hits. columns.now ≡ member_columns (access_in (P.accesses port.now) hits.access)) groups.now }
    ensures { IfOk result (λ indexes. AreIndexes places.now (P.members port.now) groups.now indexes.items) }
{
    let mut indexes = Vec::new(alloc);
    for hits in groups {
        indexes.push(index_of(alloc, port, columns, places, hits, wanted)?)?;
    }
    Ok(indexes)
}

// Adds the valuation with one tuple, where it fits.
fn push_if_fits<P: AccessPort>(
    alloc: Global,
    port: &P,
    join: &Join,
    row: &[Value],
    hits: &Hits,
    i: u32,
    found: &mut Vec<Row>,
) -> Result<(), NoMemory>
    requires hits { HitsAre (P.accesses port.now) (P.stands port.now) (P.members port.now) hits.now }
    requires columns { join.now.picked.0 ≡ member_columns (access_in (P.accesses port.now) hits.now.access) }
    requires member { i < hits.now.len }
    requires within { IsWithin (length row.now + length join.now.picked.0) join.now }
    ensures { OnOk result (found.new.items ≡ found.old.items
        ++ joins join.now.sources.items join.now.checks.items row.now (slice_index_or (P.members port.now hits.now) i [] ∷ [])) }
{
    if fits(port, join, row, hits, i) {
        found.push(joined_row(alloc, port, join, row, hits, i)?)?;
    }
    Ok(())
}

// The numbers of the tuples that have the valuation's values at the places that both share.
fn run_of<'a, P: AccessPort>(
    port: &P,
    join: &Join,
    row: &[Value],
    hits: &Hits,
    order: &'a TupleOrder,
) -> &'a [usize]
    requires hits { HitsAre (P.accesses port.now) (P.stands port.now) (P.members port.now) hits.now }
    requires columns { join.now.picked.0 ≡ member_columns (access_in (P.accesses port.now) hits.now.access) }
    requires order { IsOrder join.now.shared.1 (P.members port.now hits.now) order.now }
    ensures { let shared = join.now.shared in
        IsRun shared.1 (P.members port.now hits.now) (values_at shared.0 row.now) 0 result.now }
{
    let zero = Value::Int(0);
    let columns = join.picked.tuple();
    let value = |i: usize, place: usize|
        requires hits { HitsAre (P.accesses port.now) (P.stands port.now) (P.members port.now) hits.now }
        requires columns { columns.now ≡ member_columns (access_in (P.accesses port.now) hits.now.access) }
        requires member { i < hits.now.len }
        requires few { i < 4294967296 }
        ensures { result.now ≡ slice_index_or (slice_index_or (P.members port.entry.now hits.entry.now) i []) place zero }
    { tuple_value(port, columns, hits, i as u32, place, &zero) };
    let (count, shared) = (hits.len() as usize, &join.shared);
    order.run(count, &value, &zero, shared.tuple(), shared.row(), row)
}

/// Adds the valuation with each tuple that fits it, by the order of the tuples where there is one.
pub fn push_from_group<P: AccessPort>(
    alloc: Global,
    port: &P,
    join: &Join,
    row: &[Value],
    hits: &Hits,
    index: &Option<TupleOrder>,
    found: &mut Vec<Row>,
) -> Result<(), NoMemory>
    requires hits { HitsAre (P.accesses port.now) (P.stands port.now) (P.members port.now) hits.now }
    requires columns { join.now.picked.0 ≡ member_columns (access_in (P.accesses port.now) hits.now.access) }
    requires within { IsWithin (length row.now + length join.now.picked.0) join.now }
    requires sharing { IsSharing (length row.now) join.now }
    requires index { IsIndexed join.now.shared.1 (P.members port.now hits.now) index.now }
    ensures { OnOk result (found.new.items
        ≡ found.old.items ++ joins join.now.sources.items join.now.checks.items row.now (P.members port.now hits.now)) }
{
    let count = hits.len() as usize;
    let run = match index {
        Some(order) => Some(run_of(port, join, row, hits, order)),
        None => None,
    };
    let mut fitting = Fitting::among(count, run);
    'tuples: while let Some(i) = fitting.next() {
        push_if_fits(alloc, port, join, row, hits, i as u32, found)?;
    }
    Ok(())
}
