// Tables are kept for open queries before they change.
ghost use Rattle.std.specs.Prelude.{◌≡◌, All, OnOk, map};
ghost use Rattle.version_store.specs.Held.{HasPart, IsOpen, cursor_of, has_atom, has_part, held_of, names};

use crate::open::{Freezes, OpenQuery};
use beas_core::{NoMemory, Normal, Prepared, TableId};
use desk_model::Part;
use std::alloc::Global;

// Whether a block has an atom of a table.
fn has_atom(normal: &Normal, table: TableId) -> bool
    ensures { result ≡ has_atom table normal.now }
{
    normal
        .atoms
        .as_slice()
        .iter()
        .any(|atom| atom.table == table)
}

// Whether a query names a table.
fn names(prepared: &Prepared, table: TableId) -> bool
    ensures { result ≡ names prepared.now table }
{
    prepared
        .normals
        .as_slice()
        .iter()
        .any(|normal| has_atom(normal, table))
}

// Whether one of the parts is of a table.
fn has_part<P: Part>(parts: &[P], table: TableId) -> bool
    ensures { result ≡ has_part P.table_of parts.now table }
{
    parts.iter().any(|part| part.table() == table)
}

// Keeps a table for a query that names it and has no part of it. Nothing changes for the query.
fn freeze_one<G: Freezes<P>, P: Part + Drop>(
    alloc: Global,
    guard: &G,
    query: &mut OpenQuery<P>,
    table: TableId,
) -> Result<(), NoMemory>
    requires table { G.has_table guard.now table }
    requires kept { IsOpen P.table_of P.rows P.accesses (G.rows guard.now) (G.accesses guard.now) query.old }
    ensures kept { IsOpen P.table_of P.rows P.accesses (G.rows guard.now) (G.accesses guard.now) query.new }
    ensures held { held_of P.table_of P.rows P.accesses (G.rows guard.now) (G.accesses guard.now) query.new
        ≡ held_of P.table_of P.rows P.accesses (G.rows guard.now) (G.accesses guard.now) query.old }
    ensures cursor { query.new.cursor ≡ query.old.cursor }
    ensures frozen { OnOk result (HasPart P.table_of table query.new) }
{
    if names(query.cursor.prepared(), table) && !has_part(&query.parts, table) {
        let part = guard.freeze(alloc, table)?;
        query.parts.push(part)?;
    }
    Ok(())
}

/// Keeps a table as it is for each query that names it and has no part of it, before the table changes. Nothing changes
/// for the queries, out of memory either: they see what they saw, and their cursors stay.
pub fn freeze_for<G: Freezes<P>, P: Part + Drop>(
    alloc: Global,
    guard: &G,
    queries: &mut Vec<OpenQuery<P>>,
    table: TableId,
) -> Result<(), NoMemory>
    requires table { G.has_table guard.now table }
    requires kept { All (IsOpen P.table_of P.rows P.accesses (G.rows guard.now) (G.accesses guard.now)) queries.old.items }
    ensures kept { All (IsOpen P.table_of P.rows P.accesses (G.rows guard.now) (G.accesses guard.now)) queries.new.items }
    ensures held { map (held_of P.table_of P.rows P.accesses (G.rows guard.now) (G.accesses guard.now)) queries.new.items
        ≡ map (held_of P.table_of P.rows P.accesses (G.rows guard.now) (G.accesses guard.now)) queries.old.items }
    ensures cursors { map cursor_of queries.new.items ≡ map cursor_of queries.old.items }
    ensures frozen { OnOk result (All (HasPart P.table_of table) queries.new.items) }
{
    for place in 0..queries.len() {
        freeze_one(alloc, guard, &mut queries[place], table)?;
    }
    Ok(())
}
