// The tuples of a group, joined with a valuation.
ghost use Rattle.std.specs.Prelude.{◌≡◌, ◌<◌, ◌+◌, ◌++◌, [], length, map, flat_map, slice_index_or, All, Contains, IfOk, OnOk};
ghost use Rattle.std.specs.List.{AllZip};
ghost use Rattle.beas_core.specs.Derivations.{access_in};
ghost use Rattle.beas_core.specs.Full.{same_value};
ghost use Rattle.beas_core.specs.Groups.{group_of, member_columns, project};
ghost use Rattle.beas_core.specs.Order.{row_cmp};
ghost use Rattle.beas_core.specs.Sets.{distinct};
ghost use Rattle.plan_ops.specs.Joins.{HitsAre, IsGroup, IsSharing, IsWithin, at_place, fits_by, joined_by, joins};
ghost use Rattle.plan_ops.specs.Matching.{AreIndexes};

use crate::indexing::{indexes_of, push_from_group};
use crate::joining::Join;
use crate::probing::position_of_key;
use beas_core::{AccessId, AccessPort, ColumnId, Duplicate, Hits, List, NoMemory, Row, Value};
use place_chains::TupleOrder;
use std::alloc::Global;

// The value of a joined row at a place.
fn value_at<'a, P: AccessPort>(
    port: &'a P,
    columns: &[ColumnId],
    row: &'a [Value],
    hits: &Hits,
    i: u32,
    place: usize,
) -> &'a Value
    requires hits { HitsAre (P.accesses port.now) (P.stands port.now) (P.members port.now) hits.now }
    requires columns { columns.now ≡ member_columns (access_in (P.accesses port.now) hits.now.access) }
    requires member { i < hits.now.len }
    requires place { place < length row.now + length columns.now }
    ensures { result.now ≡ at_place row.now (slice_index_or (P.members port.now hits.now) i []) place }
{
    if place < row.len() {
        &row[place]
    } else {
        port.value(hits, i, columns[place - row.len()])
    }
}

fn is_same<P: AccessPort>(
    port: &P,
    columns: &[ColumnId],
    row: &[Value],
    hits: &Hits,
    i: u32,
    check: (usize, usize),
) -> bool
    requires hits { HitsAre (P.accesses port.now) (P.stands port.now) (P.members port.now) hits.now }
    requires columns { columns.now ≡ member_columns (access_in (P.accesses port.now) hits.now.access) }
    requires member { i < hits.now.len }
    requires left { check.0 < length row.now + length columns.now }
    requires right { check.1 < length row.now + length columns.now }
    ensures { let tuple = slice_index_or (P.members port.now hits.now) i [] in
        result ≡ same_value (at_place row.now tuple check.0) (at_place row.now tuple check.1) }
{
    let left = value_at(port, columns, row, hits, i, check.0);
    let right = value_at(port, columns, row, hits, i, check.1);
    *left == *right
}

/// Whether a tuple fits the valuation.
pub fn fits<P: AccessPort>(port: &P, join: &Join, row: &[Value], hits: &Hits, i: u32) -> bool
    requires hits { HitsAre (P.accesses port.now) (P.stands port.now) (P.members port.now) hits.now }
    requires columns { join.now.picked.0 ≡ member_columns (access_in (P.accesses port.now) hits.now.access) }
    requires member { i < hits.now.len }
    requires within { IsWithin (length row.now + length join.now.picked.0) join.now }
    ensures { result ≡ fits_by join.now.checks.items row.now (slice_index_or (P.members port.now hits.now) i []) }
{
    for check in &join.checks {
        if !is_same(port, join.picked.tuple(), row, hits, i, *check) {
            return false;
        }
    }
    true
}

/// The valuation with a tuple's values.
pub fn joined_row<P: AccessPort>(
    alloc: Global,
    port: &P,
    join: &Join,
    row: &[Value],
    hits: &Hits,
    i: u32,
) -> Result<Row, NoMemory>
    requires hits { HitsAre (P.accesses port.now) (P.stands port.now) (P.members port.now) hits.now }
    requires columns { join.now.picked.0 ≡ member_columns (access_in (P.accesses port.now) hits.now.access) }
    requires member { i < hits.now.len }
    requires within { IsWithin (length row.now + length join.now.picked.0) join.now }
    ensures { IfOk result (λ joined. joined
        ≡ joined_by join.now.sources.items row.now (slice_index_or (P.members port.now hits.now) i [])) }
{
    let mut joined = Vec::with_capacity(alloc, join.sources.len())?;
    for place in &join.sources {
        let value = value_at(port, join.picked.tuple(), row, hits, i, *place);
        joined.push_reserved(value.copy(alloc)?);
    }
    Ok(List::from_vec(joined))
}

// Each valuation with each tuple of its key's group that fits it, by indexes of the groups.
fn rows_from_groups<P: AccessPort>(
    alloc: Global,
    port: &P,
    id: AccessId,
    join: &Join,
    key: &[ColumnId],
    keys: &[Row],
    groups: &[Hits],
    indexes: &[Option<TupleOrder>],
    rows: &[Row],
) -> Result<Vec<Row>, NoMemory>
    requires columns { join.now.picked.0 ≡ member_columns (access_in (P.accesses port.now) id) }
    requires within { All (λ row. IsWithin (length row + length join.now.picked.0) join.now) rows.now }
    requires sharing { All (λ row. IsSharing (length row) join.now) rows.now }
    requires bound { All (λ row. All (λ column. column.0 < length row) key.now) rows.now }
    requires keys { keys.now ≡ distinct row_cmp (map (project key.now) rows.now) }
    requires groups { AllZip
        (IsGroup (P.rows port.now) (P.accesses port.now) (P.stands port.now) (P.members port.now) id)
        keys.now groups.now }
    requires indexes { AreIndexes join.now.shared.1 (P.members port.now) groups.now indexes.now }
    ensures { let access = access_in (P.accesses port.now) id in
        IfOk result (λ found. found.items ≡ flat_map (λ row. joins join.now.sources.items join.now.checks.items row
        (group_of (P.rows port.now access.table) access (project key.now row))) rows.now) }
{
    let mut found = Vec::with_capacity(alloc, rows.len())?;
    for row in rows {
        let at = position_of_key(keys, key, row.as_slice());
        push_from_group(
            alloc,
            port,
            join,
            row.as_slice(),
            &groups[at],
            &indexes[at],
            &mut found,
        )?;
    }
    Ok(found)
}

/// Each valuation with each tuple of its key's group that fits it.
pub fn joined_rows<P: AccessPort>(
    alloc: Global,
    port: &P,
    id: AccessId,
    join: &Join,
    key: &[ColumnId],
    keys: &[Row],
    groups: &[Hits],
    rows: &[Row],
) -> Result<Vec<Row>, NoMemory>
    requires columns { join.now.picked.0 ≡ member_columns (access_in (P.accesses port.now) id) }
    requires within { All (λ row. IsWithin (length row + length join.now.picked.0) join.now) rows.now }
    requires sharing { All (λ row. IsSharing (length row) join.now) rows.now }
    requires bound { All (λ row. All (λ column. column.0 < length row) key.now) rows.now }
    requires keys { keys.now ≡ distinct row_cmp (map (project key.now) rows.now) }
    requires groups { AllZip
        (IsGroup (P.rows port.now) (P.accesses port.now) (P.stands port.now) (P.members port.now) id)
        keys.now groups.now }
    ensures { let access = access_in (P.accesses port.now) id in
        IfOk result (λ found. found.items ≡ flat_map (λ row. joins join.now.sources.items join.now.checks.items row
        (group_of (P.rows port.now access.table) access (project key.now row))) rows.now) }
{
    // Where several valuations give one key.
    let shared = rows.len() > keys.len();
    let (columns, places) = (join.picked.tuple(), join.shared.tuple());
    let indexes = indexes_of(alloc, port, columns, places, groups, shared)?;
    rows_from_groups(alloc, port, id, join, key, keys, groups, &indexes, rows)
}
