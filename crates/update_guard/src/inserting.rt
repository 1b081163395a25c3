// Rows are put into the indexes of their table, all or none.
ghost use Rattle.std.specs.Prelude.{◌≡◌, ◌+◌, ◌<◌, ◌≤◌, ◌^◌, nat_lt, ◌++◌, ◌∷◌, List, [], length, All, IfOk, OnOk, OnErr, vec_len, option_map, slice_index_or, slice_set};
ghost use Rattle.beas_core.specs.Types.{Row};
ghost use Rattle.catalogue.specs.Schema.{accesses_on, columns_at};
ghost use Rattle.catalogue.specs.Refusing.{wrong_width, wrong_type, breaks_bound, broken, broken_bound, insert_refusal};
ghost use Rattle.catalogue.specs.Database.{with_more_rows};
ghost use Rattle.beas_core.specs.Results.{IsRefusedAs, refused_if};
ghost use Rattle.update_guard.specs.Guarding.{IndexesOf, IsGuarded};
ghost use Rattle.catalogue.specs.Stored.{HoldOver, database_of};
ghost use Rattle.update_guard.specs.Indexing.{SomeRows, AreOwn};
ghost use Rattle.update_guard.specs.Inserting.{IsRefusedOver, TakeRows, StayIndexed, HoldWith};
ghost use Rattle.std.specs.Option.{option_or};

use crate::breaking::broken_by;
use crate::checking::{refuse_too_many, refuse_types, refuse_widths};
use crate::indexes::Indexes;
use crate::indexing::{add_all, add_row, remove_rows};
use beas_core::{Counted, Fail, Limits, List, Refusal, Row, TableId};
use catalogue::Catalogue;
use row_store::Rows;
use std::alloc::Global;
use std::mem;

/// Puts the row with this number into the indexes of its table's constraints, or into none. It is refused
/// where a constraint would not hold with it.
fn put_row<I: Indexes>(
    alloc: Global,
    catalogue: &Catalogue,
    table: TableId,
    indexes: &mut I,
    row: &Row,
    number: u32,
) -> Result<(), Fail>
    requires live { table.0 < length catalogue.now.tables }
    requires count { length (I.seen indexes.old) ≡ length catalogue.now.accesses }
    requires room { All (λ index. index.total + 1 < 2 ^ 32) (I.seen indexes.old) }
    requires wide { length row.now ≡ length (columns_at catalogue.now table) }
    ensures refused { (rows : List (List Row)) → table.0 < length rows
        → IndexesOf catalogue.now.accesses rows (I.seen indexes.old) → HoldOver catalogue.now.accesses rows
        → IsRefusedAs result (option_map (breaks_bound (number, row.now))
        (broken (accesses_on catalogue.now.accesses table) (slice_index_or rows table.0 [] ++ row.now ∷ []))) }
    ensures added { OnOk result (TakeRows catalogue.now.accesses table (row.now ∷ []) (I.seen indexes.old) (I.seen indexes.new)) }
    ensures err { OnErr result (StayIndexed catalogue.now.accesses table (I.seen indexes.old) (I.seen indexes.new)) }
    ensures len { length (I.seen indexes.new) ≡ length (I.seen indexes.old) }
{
    match add_row(alloc, catalogue, table, indexes, row)? {
        None => Ok(()),
        Some(place) => {
            let access = &catalogue.accesses().as_slice()[place];
            Err(Fail::Refused(broken_by(alloc, access, row, number)?))
        }
    }
}

/// Puts rows, which are to come after those of their table, into the indexes of its constraints one by one, or into
/// none. The first row that breaks a constraint after those before it is refused, with the first such constraint.
fn add_each<I: Indexes>(
    alloc: Global,
    catalogue: &Catalogue,
    table: TableId,
    indexes: &mut I,
    rows: &[Row],
) -> Result<(), Fail>
    requires live { table.0 < length catalogue.now.tables }
    requires count { length (I.seen indexes.old) ≡ length catalogue.now.accesses }
    requires few { length rows.now < 2 ^ 32 }
    requires wide { All (λ row. length row ≡ length (columns_at catalogue.now table)) rows.now }
    requires known { SomeRows catalogue.now.accesses table.0 (length rows.now) (I.seen indexes.old) }
    ensures refused { IsRefusedOver catalogue.now.accesses table rows.now result (I.seen indexes.old) }
    ensures added { OnOk result (TakeRows catalogue.now.accesses table rows.now (I.seen indexes.old) (I.seen indexes.new)) }
    ensures hold { OnOk result (HoldWith catalogue.now.accesses table rows.now (I.seen indexes.old)) }
    ensures err { OnErr result (StayIndexed catalogue.now.accesses table (I.seen indexes.old) (I.seen indexes.new)) }
    ensures len { length (I.seen indexes.new) ≡ length (I.seen indexes.old) }
{
    for (i, row) in rows.iter().enumerate() {
        match put_row(alloc, catalogue, table, indexes, row, i as u32 + 1) {
            Ok(()) => {}
            Err(why) => {
                remove_rows(catalogue, table, indexes, &rows[..i]);
                return Err(why);
            }
        }
    }
    Ok(())
}

/// Puts rows, which are to come after those of their table, into the indexes of its constraints, or into
/// none. The first row that breaks a constraint after those before it is refused, with the first such
/// constraint. More rows than one are first tried together: each index takes them in its own order, which spares it
/// searches that miss the processor's caches. This tells no more than whether all can go in; where they can't, the one
/// to be refused is found row by row.
fn add_rows<I: Indexes>(
    alloc: Global,
    catalogue: &Catalogue,
    table: TableId,
    indexes: &mut I,
    rows: &[Row],
) -> Result<(), Fail>
    requires live { table.0 < length catalogue.now.tables }
    requires count { length (I.seen indexes.old) ≡ length catalogue.now.accesses }
    requires few { length rows.now < 2 ^ 32 }
    requires wide { All (λ row. length row ≡ length (columns_at catalogue.now table)) rows.now }
    requires known { SomeRows catalogue.now.accesses table.0 (length rows.now) (I.seen indexes.old) }
    ensures refused { IsRefusedOver catalogue.now.accesses table rows.now result (I.seen indexes.old) }
    ensures added { OnOk result (TakeRows catalogue.now.accesses table rows.now (I.seen indexes.old) (I.seen indexes.new)) }
    ensures hold { OnOk result (HoldWith catalogue.now.accesses table rows.now (I.seen indexes.old)) }
    ensures err { OnErr result (StayIndexed catalogue.now.accesses table (I.seen indexes.old) (I.seen indexes.new)) }
    ensures len { length (I.seen indexes.new) ≡ length (I.seen indexes.old) }
{
    if rows.len() < 2 {
        return add_each(alloc, catalogue, table, indexes, rows);
    }
    if add_all(alloc, catalogue, table, indexes, rows)? {
        return Ok(());
    }
    add_each(alloc, catalogue, table, indexes, rows)
}

/// Moves rows to the end of a table and puts them into its indexes, all or none.
fn insert_rows<I: Indexes>(
    alloc: Global,
    catalogue: &Catalogue,
    table: TableId,
    store: &mut Rows,
    indexes: &mut I,
    limits: &Limits,
    mut rows: List<Row>,
) -> Result<(), Fail>
    requires live { table.0 < length catalogue.now.tables }
    requires count { length (I.seen indexes.old) ≡ length catalogue.now.accesses }
    requires few { length rows < 2 ^ 32 }
    requires wide { All (λ row. length row ≡ length (columns_at catalogue.now table)) rows }
    requires known { AreOwn catalogue.now.accesses table.0 store.old (I.seen indexes.old) }
    ensures refused { (all : List (List Row)) → table.0 < length all → slice_index_or all table.0 [] ≡ store.old
        → IndexesOf catalogue.now.accesses all (I.seen indexes.old) → HoldOver catalogue.now.accesses all
        → IsRefusedAs result (option_or (refused_if (nat_lt limits.now.rows (length store.old + length rows))
        (Refusal.TooMany Counted.Rows limits.now.rows))
        (broken_bound (accesses_on catalogue.now.accesses table) store.old rows)) }
    ensures rows { OnOk result (store.new ≡ store.old ++ rows) }
    ensures within { OnOk result (length store.old + length rows ≤ limits.now.rows) }
    ensures added { OnOk result ((all : List (List Row)) → table.0 < length all
        → IndexesOf catalogue.now.accesses (slice_set all table.0 store.old) (I.seen indexes.old)
        → IndexesOf catalogue.now.accesses (slice_set all table.0 (store.old ++ rows)) (I.seen indexes.new)) }
    ensures hold { OnOk result ((all : List (List Row)) → table.0 < length all
        → slice_index_or all table.0 [] ≡ store.old
        → IndexesOf catalogue.now.accesses all (I.seen indexes.old) → HoldOver catalogue.now.accesses all
        → HoldOver catalogue.now.accesses (slice_set all table.0 (store.old ++ rows))) }
    ensures err { OnErr result (store.new ≡ store.old) }
    ensures indexes { OnErr result ((all : List (List Row)) → table.0 < length all
        → IndexesOf catalogue.now.accesses (slice_set all table.0 store.old) (I.seen indexes.old)
        → IndexesOf catalogue.now.accesses (slice_set all table.0 store.old) (I.seen indexes.new)) }
{
    refuse_too_many(store.len(), rows.len(), limits.rows)?;
    add_rows(alloc, catalogue, table, indexes, rows.as_slice())?;
    match store.append(alloc, &mut rows, limits.rows) {
        Ok(()) => Ok(()),
        Err(why) => {
            remove_rows(catalogue, table, indexes, rows.as_slice());
            Err(why)
        }
    }
}

/// Checks rows and adds them at the end of a table and to its indexes, all or none.
fn insert_into<I: Indexes>(
    alloc: Global,
    catalogue: &Catalogue,
    table: TableId,
    stores: &mut Vec<Rows>,
    indexes: &mut I,
    limits: &Limits,
    rows: List<Row>,
) -> Result<(), Fail>
    requires live { table.0 < length catalogue.now.tables }
    requires few { length rows < 2 ^ 32 }
    requires narrow { All (λ row. length row < 2 ^ 32) rows }
    requires kept { IsGuarded catalogue.now stores.old.items (I.seen indexes.old) }
    ensures refused { IsRefusedAs result (option_or (wrong_width (columns_at catalogue.now table) rows)
        (option_or (wrong_type (columns_at catalogue.now table) rows)
        (option_or (refused_if (nat_lt limits.now.rows (length (slice_index_or stores.old.items table.0 []) + length
        rows)) (Refusal.TooMany Counted.Rows limits.now.rows))
        (broken_bound (accesses_on catalogue.now.accesses table) (slice_index_or stores.old.items table.0 []) rows)))) }
    ensures ok { OnOk result (stores.new.items ≡ slice_set stores.old.items table.0
        (slice_index_or stores.old.items table.0 [] ++ rows)) }
    ensures err { OnErr result (stores.new.items ≡ stores.old.items) }
    ensures kept { IsGuarded catalogue.now stores.new.items (I.seen indexes.new) }
{
    let columns = catalogue.columns(table).as_slice();
    refuse_widths(columns, rows.as_slice())?;
    refuse_types(alloc, columns, rows.as_slice())?;
    let store = &mut stores[table.0 as usize];
    insert_rows(alloc, catalogue, table, store, indexes, limits, rows)
}

/// Adds rows at the end of a table and to its indexes, all or none, and answers how many. They are refused as by
/// `Guarded::insert`; after an error the rows and what the indexes mean are as they were.
pub fn insert<I: Indexes>(
    alloc: Global,
    catalogue: &Catalogue,
    rows: &mut List<Rows>,
    indexes: &mut I,
    limits: &Limits,
    table: TableId,
    added: List<Row>,
) -> Result<u32, Fail>
    requires kept { IsGuarded catalogue.now rows.old (I.seen indexes.old) }
    requires live { table.0 < length (database_of catalogue.now rows.old).tables }
    requires few { length added < 2 ^ 32 }
    requires narrow { All (λ row. length row < 2 ^ 32) added }
    ensures guarded { IsGuarded catalogue.now rows.new (I.seen indexes.new) }
    ensures refused { IsRefusedAs result (insert_refusal limits.now (database_of catalogue.now rows.old) table added) }
    ensures count { IfOk result (λ count. count ≡ length added) }
    ensures ok { OnOk result (database_of catalogue.now rows.new
        ≡ with_more_rows (database_of catalogue.now rows.old) table added) }
    ensures err { OnErr result (database_of catalogue.now rows.new ≡ database_of catalogue.now rows.old) }
{
    let count = added.len() as u32;
    let mut stores = mem::replace(rows, List::new(alloc)).into_vec();
    let outcome = insert_into(alloc, catalogue, table, &mut stores, indexes, limits, added);
    *rows = List::from_vec(stores);
    match outcome {
        Ok(()) => Ok(count),
        Err(why) => Err(why),
    }
}
