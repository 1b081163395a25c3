// Rows come into and go out of the indexes of their table's constraints.
ghost use Rattle.std.specs.Prelude.{◌≡◌, ◌≢◌, ◌+◌, ◌<◌, ◌≤◌, ◌^◌, ◌++◌, ◌∷◌, ℕ, List, [], length, take, drop, All, Some, None, if◌then◌else◌, IfOk, OnOk, OnErr, IfSome, MatchOption, IsTrue, option_map, vec_len, ◌==◌, slice_index_or, slice_set};
ghost use Rattle.std.specs.List.{list_any};
ghost use Rattle.std.specs.Option.{is_none};
ghost use Rattle.beas_core.specs.Types.{Row};
ghost use Rattle.access_index.specs.Index.{Index};
ghost use Rattle.catalogue.specs.Schema.{accesses_on, access_with_id};
ghost use Rattle.catalogue.specs.Kept.{ids_on};
ghost use Rattle.catalogue.specs.Refusing.{broken, broken_bound};
ghost use Rattle.beas_core.specs.Results.{IsRefusedAs};
ghost use Rattle.update_guard.specs.Guarding.{IndexesOf};
ghost use Rattle.catalogue.specs.Stored.{HoldOver};
ghost use Rattle.update_guard.specs.Indexing.{AreIndexed, IsPlaceOn, no_access};
ghost use Rattle.update_guard.specs.Inserting.{TakeRows, StayIndexed};

use crate::indexes::Indexes;
use beas_core::{AccessId, NoMemory, Row, TableId};
use catalogue::Catalogue;
use std::alloc::Global;

/// Where a table's constraint number `k` stands among all.
fn place_on(catalogue: &Catalogue, table: TableId, k: usize) -> usize
    requires live { table.0 < length catalogue.now.tables }
    requires within { k < length (ids_on catalogue.now.accesses table.0) }
    ensures { IsPlaceOn catalogue.now.accesses table.0 k result }
{
    let id = id_in(catalogue.ids_on(table), k);
    catalogue.position(id)
}

fn id_in(ids: &[AccessId], k: usize) -> AccessId
    requires { k < length ids.now }
    ensures { result ≡ slice_index_or ids.now k result }
{
    ids[k]
}

/// Takes a row out of the indexes of the first `n` constraints on a table. It takes no memory.
pub fn remove_from<I: Indexes>(
    catalogue: &Catalogue,
    table: TableId,
    n: usize,
    indexes: &mut I,
    row: &Row,
)
    requires live { table.0 < length catalogue.now.tables }
    requires within { n ≤ length (ids_on catalogue.now.accesses table.0) }
    requires count { length (I.seen indexes.old) ≡ length catalogue.now.accesses }
    ensures taken { (rows : List (List Row)) (front back : List Row) → table.0 < length rows
        → AreIndexed catalogue.now.accesses rows table.0 (front ++ back) (front ++ row.now ∷ back)
        (take n (ids_on catalogue.now.accesses table.0)) (I.seen indexes.old)
        → IndexesOf catalogue.now.accesses (slice_set rows table.0 (front ++ back)) (I.seen indexes.new) }
    ensures len { length (I.seen indexes.new) ≡ length (I.seen indexes.old) }
{
    for k in 0..n {
        let place = place_on(catalogue, table, k);
        indexes.remove(place, row);
    }
}

/// Takes a row out of the indexes of a table's constraints. It takes no memory.
pub fn remove_row<I: Indexes>(catalogue: &Catalogue, table: TableId, indexes: &mut I, row: &Row)
    requires live { table.0 < length catalogue.now.tables }
    requires count { length (I.seen indexes.old) ≡ length catalogue.now.accesses }
    ensures taken { (rows : List (List Row)) (front back : List Row) → table.0 < length rows
        → IndexesOf catalogue.now.accesses (slice_set rows table.0 (front ++ row.now ∷ back)) (I.seen indexes.old)
        → IndexesOf catalogue.now.accesses (slice_set rows table.0 (front ++ back)) (I.seen indexes.new) }
    ensures len { length (I.seen indexes.new) ≡ length (I.seen indexes.old) }
{
    remove_from(
        catalogue,
        table,
        catalogue.ids_on(table).len(),
        indexes,
        row,
    );
}

/// Takes rows, the last of their table, out of the indexes of its first `n` constraints. It takes no memory.
fn remove_rows_from<I: Indexes>(
    catalogue: &Catalogue,
    table: TableId,
    n: usize,
    indexes: &mut I,
    added: &[Row],
)
    requires live { table.0 < length catalogue.now.tables }
    requires within { n ≤ length (ids_on catalogue.now.accesses table.0) }
    requires count { length (I.seen indexes.old) ≡ length catalogue.now.accesses }
    ensures taken { (rows : List (List Row)) (front : List Row) → table.0 < length rows
        → AreIndexed catalogue.now.accesses rows table.0 front (front ++ added.now)
        (take n (ids_on catalogue.now.accesses table.0)) (I.seen indexes.old)
        → IndexesOf catalogue.now.accesses (slice_set rows table.0 front) (I.seen indexes.new) }
    ensures len { length (I.seen indexes.new) ≡ length (I.seen indexes.old) }
{
    for k in 0..n {
        let place = place_on(catalogue, table, k);
        indexes.remove_rows(place, added);
    }
}

/// Takes rows, the last of their table, out of the indexes of its constraints. It takes no memory.
pub fn remove_rows<I: Indexes>(
    catalogue: &Catalogue,
    table: TableId,
    indexes: &mut I,
    added: &[Row],
)
    requires live { table.0 < length catalogue.now.tables }
    requires count { length (I.seen indexes.old) ≡ length catalogue.now.accesses }
    ensures taken { (rows : List (List Row)) (front : List Row) → table.0 < length rows
        → IndexesOf catalogue.now.accesses (slice_set rows table.0 (front ++ added.now)) (I.seen indexes.old)
        → IndexesOf catalogue.now.accesses (slice_set rows table.0 front) (I.seen indexes.new) }
    ensures len { length (I.seen indexes.new) ≡ length (I.seen indexes.old) }
{
    let n = catalogue.ids_on(table).len();
    remove_rows_from(catalogue, table, n, indexes, added);
}

/// Puts a row, which is to come after those of its table, into the indexes of its constraints where these all hold with
/// it, and else into none; it answers where the first constraint stands that doesn't, if there is one.
pub fn add_row<I: Indexes>(
    alloc: Global,
    catalogue: &Catalogue,
    table: TableId,
    indexes: &mut I,
    row: &Row,
) -> Result<Option<usize>, NoMemory>
    requires live { table.0 < length catalogue.now.tables }
    requires count { length (I.seen indexes.old) ≡ length catalogue.now.accesses }
    requires room { All (λ index. index.total + 1 < 2 ^ 32) (I.seen indexes.old) }
    ensures indexed { IfOk result (λ found. MatchOption found
        (TakeRows catalogue.now.accesses table (row.now ∷ []) (I.seen indexes.old) (I.seen indexes.new))
        (λ place. StayIndexed catalogue.now.accesses table (I.seen indexes.old) (I.seen indexes.new))) }
    ensures first { IfOk result (λ found. (rows : List (List Row)) → table.0 < length rows
        → IndexesOf catalogue.now.accesses rows (I.seen indexes.old) → HoldOver catalogue.now.accesses rows
        → broken (accesses_on catalogue.now.accesses table) (slice_index_or rows table.0 [] ++ row.now ∷ [])
        ≡ option_map (λ place. slice_index_or catalogue.now.accesses place no_access) found) }
    ensures within { IfOk result (λ found. IfSome found (λ place. place < length catalogue.now.accesses)) }
    ensures key { IfOk result (λ found. IfSome found (λ place.
        (slice_index_or catalogue.now.accesses place no_access).table.0 ≡ table.0)) }
    ensures err { OnErr result (StayIndexed catalogue.now.accesses table (I.seen indexes.old) (I.seen indexes.new)) }
    ensures len { length (I.seen indexes.new) ≡ length (I.seen indexes.old) }
{
    for k in 0..catalogue.ids_on(table).len() {
        let place = place_on(catalogue, table, k);
        match indexes.add_if_holds(alloc, place, row) {
            Ok(true) => {}
            Ok(false) => {
                remove_from(catalogue, table, k, indexes, row);
                return Ok(Some(place));
            }
            Err(why) => {
                remove_from(catalogue, table, k, indexes, row);
                return Err(why);
            }
        }
    }
    Ok(None)
}

/// Puts rows, which are to come after those of their table, into the indexes of its constraints where these all
/// hold with them, and else into none. Each index takes all rows before the next one does, so that it can take them
/// in the order of its own tuples.
pub fn add_all<I: Indexes>(
    alloc: Global,
    catalogue: &Catalogue,
    table: TableId,
    indexes: &mut I,
    added: &[Row],
) -> Result<bool, NoMemory>
    requires live { table.0 < length catalogue.now.tables }
    requires count { length (I.seen indexes.old) ≡ length catalogue.now.accesses }
    requires room { All (λ index. index.total + length added.now < 2 ^ 32) (I.seen indexes.old) }
    ensures indexed { IfOk result (λ all. (rows : List (List Row)) (front : List Row) → table.0 < length rows
        → IndexesOf catalogue.now.accesses (slice_set rows table.0 front) (I.seen indexes.old)
        → IndexesOf catalogue.now.accesses (slice_set rows table.0 (if all then front ++ added.now else front))
        (I.seen indexes.new)) }
    ensures broken { IfOk result (λ all. (rows : List (List Row)) → table.0 < length rows
        → IndexesOf catalogue.now.accesses rows (I.seen indexes.old) → HoldOver catalogue.now.accesses rows
        → is_none (broken (accesses_on catalogue.now.accesses table) (slice_index_or rows table.0 [] ++ added.now))
        ≡ all) }
    ensures err { OnErr result (StayIndexed catalogue.now.accesses table (I.seen indexes.old) (I.seen indexes.new)) }
    ensures len { length (I.seen indexes.new) ≡ length (I.seen indexes.old) }
{
    for k in 0..catalogue.ids_on(table).len() {
        let place = place_on(catalogue, table, k);
        match indexes.add_rows(alloc, place, added) {
            Ok(true) => {}
            Ok(false) => {
                remove_rows_from(catalogue, table, k, indexes, added);
                return Ok(false);
            }
            Err(why) => {
                remove_rows_from(catalogue, table, k, indexes, added);
                return Err(why);
            }
        }
    }
    Ok(true)
}
