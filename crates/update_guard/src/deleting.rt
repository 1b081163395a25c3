// Rows go out of a table and its indexes in one pass.
ghost use Rattle.std.specs.Prelude.{◌≡◌, ◌+◌, ◌<◌, List, [], length, All, vec_len, slice_index_or, slice_set};
ghost use Rattle.beas_core.specs.Types.{Row};
ghost use Rattle.catalogue.specs.Database.{kept_rows, schema_of, rows_at, block_table, with_rows_kept};
ghost use Rattle.catalogue.specs.Stored.{database_of};
ghost use Rattle.update_guard.specs.Filtering.{BlockFits};
ghost use Rattle.update_guard.specs.Guarding.{IndexesOf, IsGuarded};
ghost use Rattle.beas_core.specs.Shapes.{BlockIsWellFormed, width_of};
ghost use Rattle.catalogue.specs.Schema.{columns_at};

use crate::filtering::{meets, table_of};
use crate::indexes::Indexes;
use crate::indexing::remove_row;
use beas_core::{Block, List, Steps, TableId};
use catalogue::Catalogue;
use row_store::Rows;
use std::mem;
use std::sync::ledger::Ledger;

/// Takes the rows that meet all conditions of a block out of a table and its indexes; the others keep
/// their order. It answers how many went, reads each row once and takes no memory.
fn sweep<I: Indexes, L: Ledger>(
    catalogue: &Catalogue,
    table: TableId,
    rows: &mut Rows,
    indexes: &mut I,
    filter: &Block,
    steps: &mut Steps<L>,
) -> u32
    requires live { table.0 < length catalogue.now.tables }
    requires count { length (I.seen indexes.old) ≡ length catalogue.now.accesses }
    requires fits { All (λ row. BlockFits row filter.now) rows.old }
    ensures gone { result + length rows.new ≡ length rows.old }
    ensures rows { rows.new ≡ kept_rows filter.now rows.old }
    ensures indexes { (all : List (List Row)) → table.0 < length all
        → IndexesOf catalogue.now.accesses (slice_set all table.0 rows.old) (I.seen indexes.old)
        → IndexesOf catalogue.now.accesses (slice_set all table.0 rows.new) (I.seen indexes.new) }
    ensures len { length (I.seen indexes.new) ≡ length (I.seen indexes.old) }
    ensures cost { steps.new ≡ steps.old + length rows.old }
{
    let count = rows.len();
    let mut kept = 0;
    for i in 0..count {
        let row = rows.row(i, steps);
        if meets(filter, row) {
            remove_row(catalogue, table, indexes, row);
        } else {
            rows.swap(kept, i);
            kept += 1;
        }
    }
    rows.truncate(kept);
    count - kept
}

/// Takes the rows that meet all conditions of a block out of its table and the table's indexes. It answers
/// how many went.
fn delete_from<I: Indexes, L: Ledger>(
    catalogue: &Catalogue,
    table: TableId,
    stores: &mut Vec<Rows>,
    indexes: &mut I,
    filter: &Block,
    steps: &mut Steps<L>,
) -> u32
    requires live { table.0 < length catalogue.now.tables }
    requires kept { IsGuarded catalogue.now stores.old.items (I.seen indexes.old) }
    requires form { BlockIsWellFormed filter.now }
    requires one { length filter.now.atoms ≡ 1 }
    requires wide { width_of filter.now.atoms 0 ≡ length (columns_at catalogue.now table) }
    ensures rows { stores.new.items ≡ slice_set stores.old.items table.0
        (kept_rows filter.now (slice_index_or stores.old.items table.0 [])) }
    ensures gone { result + length (kept_rows filter.now (slice_index_or stores.old.items table.0 []))
        ≡ length (slice_index_or stores.old.items table.0 []) }
    ensures cost { steps.new ≡ steps.old + length (slice_index_or stores.old.items table.0 []) }
    ensures kept { IsGuarded catalogue.now stores.new.items (I.seen indexes.new) }
{
    let store = &mut stores[table.0 as usize];
    sweep(catalogue, table, store, indexes, filter, steps)
}

/// Takes the rows of a block's table out that meet all its conditions, and answers how many; the others keep their
/// order. It reads each row of that table once and takes no memory.
pub fn delete<I: Indexes, L: Ledger>(
    catalogue: &Catalogue,
    rows: &mut List<Rows>,
    indexes: &mut I,
    filter: &Block,
    steps: &mut Steps<L>,
) -> u32
    requires kept { IsGuarded catalogue.now rows.old (I.seen indexes.old) }
    requires form { BlockIsWellFormed filter.now }
    requires one { length filter.now.atoms ≡ 1 }
    requires live { (block_table filter.now).0 < length (database_of catalogue.now rows.old).tables }
    requires wide { width_of filter.now.atoms 0 ≡ length
        (columns_at (schema_of (database_of catalogue.now rows.old)) (block_table filter.now)) }
    ensures guarded { IsGuarded catalogue.now rows.new (I.seen indexes.new) }
    ensures kept { database_of catalogue.now rows.new ≡ with_rows_kept filter.now (database_of catalogue.now rows.old) }
    ensures count { result + length (kept_rows filter.now
        (rows_at (database_of catalogue.now rows.old) (block_table filter.now)))
        ≡ length (rows_at (database_of catalogue.now rows.old) (block_table filter.now)) }
    ensures cost { steps.new ≡ steps.old
        + length (rows_at (database_of catalogue.now rows.old) (block_table filter.now)) }
{
    let table = table_of(filter);
    let mut stores = mem::replace(rows, List::new(catalogue.alloc())).into_vec();
    let gone = delete_from(catalogue, table, &mut stores, indexes, filter, steps);
    *rows = List::from_vec(stores);
    gone
}
