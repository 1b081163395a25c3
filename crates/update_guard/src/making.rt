// Tables and constraints are made, each with its rows or its index, or not at all.
ghost use Rattle.std.specs.Prelude.{◌≡◌, ◌≢◌, ◌+◌, ◌<◌, ◌≤◌, ◌++◌, ◌∷◌, if◌then◌else◌, [], List, length, IfOk, IfErr, IsOk, IsTrue, OnOk, OnErr, Err, None, slice_index_or};
ghost use Rattle.beas_core.specs.Shapes.{AccessIsWellFormed};
ghost use Rattle.std.specs.Option.{is_none, option_or};
ghost use Rattle.access_index.specs.Index.{Index};
ghost use Rattle.catalogue.specs.Schema.{columns_at, has_access, schema_with_table, schema_with_access, schema_without_access};
ghost use Rattle.catalogue.specs.Refusing.{add_table_refusal, admit_refusal, already_broken, new_access, drop_access_refusal};
ghost use Rattle.beas_core.specs.Results.{IsRefusedAs};
ghost use Rattle.catalogue.specs.Database.{schema_of, with_table};
ghost use Rattle.catalogue.specs.Stored.{database_of};
ghost use Rattle.update_guard.specs.Guarding.{IsGuarded};
ghost use Rattle.update_guard.specs.Making.{AddsIndex, DropsIndex};

use crate::indexes::Indexes;
use beas_core::{
    Access, AccessId, AccessSpec, Column, Fail, Limits, List, Name, Refusal, Steps, TableId,
};
use catalogue::Catalogue;
use row_store::Rows;
use std::alloc::Global;
use std::mem;
use std::sync::ledger::Ledger;

/// Makes a table, and a place for its rows.
fn make_table(
    alloc: Global,
    catalogue: &mut Catalogue,
    rows: &mut Vec<Rows>,
    limits: &Limits,
    name: Name,
    columns: List<Column>,
) -> Result<TableId, Fail>
    requires { 1 ≤ length columns }
    ensures refused { IsRefusedAs result (add_table_refusal limits.now catalogue.old name columns) }
    ensures id { IfOk result (λ id. id.0 ≡ length catalogue.old.tables) }
    ensures ok { OnOk result (catalogue.new ≡ schema_with_table catalogue.old name columns) }
    ensures rows { OnOk result (rows.new.items ≡ rows.old.items ++ [] ∷ []) }
    ensures err { OnErr result (catalogue.new ≡ catalogue.old) }
    ensures rows_stay { OnErr result (rows.new.items ≡ rows.old.items) }
{
    rows.reserve(1)?;
    let id = catalogue.add_table(alloc, limits, name, columns)?;
    rows.push_reserved(Rows::new(alloc));
    Ok(id)
}

/// Makes a table without rows, over whatever indexes. It is refused as `Guarded::create_table` is; after an error all is as it was.
pub fn create_table(
    alloc: Global,
    catalogue: &mut Catalogue,
    rows: &mut List<Rows>,
    limits: &Limits,
    name: Name,
    columns: List<Column>,
) -> Result<TableId, Fail>
    requires some { 1 ≤ length columns }
    requires tables { length rows.old ≡ length catalogue.old.tables }
    ensures guarded { (indexes : List Index) → IsGuarded catalogue.old rows.old indexes
        → IsGuarded catalogue.new rows.new indexes }
    ensures refused { IsRefusedAs result (add_table_refusal limits.now
        (schema_of (database_of catalogue.old rows.old)) name columns) }
    ensures id { IfOk result (λ id. id.0 ≡ length (database_of catalogue.old rows.old).tables) }
    ensures ok { OnOk result (database_of catalogue.new rows.new
        ≡ with_table (database_of catalogue.old rows.old) name columns) }
    ensures err { OnErr result (database_of catalogue.new rows.new ≡ database_of catalogue.old rows.old) }
{
    let mut stores = mem::replace(rows, List::new(alloc)).into_vec();
    let made = make_table(alloc, catalogue, &mut stores, limits, name, columns);
    *rows = List::from_vec(stores);
    made
}

/// Adds the index of rows for a constraint at the end, which is refused where the constraint doesn't hold over them.
fn put_index<I: Indexes, L: Ledger>(
    alloc: Global,
    access: Access,
    rows: &Rows,
    indexes: &mut I,
    steps: &mut Steps<L>,
) -> Result<(), Fail>
    requires { AccessIsWellFormed 64 access }
    ensures refused { IsRefusedAs result (already_broken rows.now access) }
    ensures index { OnOk result (AddsIndex rows.now access (I.seen indexes.old) (I.seen indexes.new)) }
    ensures err { OnErr result (I.seen indexes.new ≡ I.seen indexes.old) }
    ensures read { OnOk result (steps.new ≡ steps.old + length rows.now) }
    ensures refused_read { IfErr result (λ why. why ≢ Fail.NoMemory → steps.new ≡ steps.old + length rows.now) }
    ensures at_most { steps.new ≤ steps.old + length rows.now }
    ensures no_fewer { steps.old ≤ steps.new }
{
    let bound = access.bound;
    let end = indexes.len();
    let needed = indexes.build(alloc, access, rows, steps)?;
    if needed > bound {
        indexes.drop_at(end);
        return Err(Fail::Refused(Refusal::AlreadyBroken { needed, bound }));
    }
    Ok(())
}

/// Adds a constraint that a statement may make, whose index stands at the end, or takes that index away.
fn put_access<I: Indexes>(
    alloc: Global,
    catalogue: &mut Catalogue,
    indexes: &mut I,
    limits: &Limits,
    spec: &AccessSpec,
) -> Result<AccessId, Fail>
    requires fetches { 1 ≤ length spec.now.fetched }
    requires may { admit_refusal limits.now catalogue.old spec.now ≡ None }
    requires some { 1 ≤ length (I.seen indexes.old) }
    ensures refused { IsRefusedAs result None }
    ensures id { IfOk result (λ id. id.0 ≡ catalogue.old.created) }
    ensures ok { OnOk result (catalogue.new ≡ schema_with_access catalogue.old (new_access catalogue.old spec.now)) }
    ensures index { OnOk result (I.seen indexes.new ≡ I.seen indexes.old) }
    ensures err { OnErr result (catalogue.new ≡ catalogue.old) }
    ensures without { OnErr result ((front : List Index) (last : Index) → I.seen indexes.old ≡ front ++ last ∷ []
        → I.seen indexes.new ≡ front) }
{
    match catalogue.add_access(alloc, limits, spec) {
        Ok(id) => Ok(id),
        Err(why) => {
            indexes.drop_at(indexes.len() - 1);
            Err(why)
        }
    }
}

/// Recalls that a table has at most 64 columns. The call is there for its clause and changes nothing.
fn recall_few_columns(catalogue: &Catalogue, table: TableId)
    requires { table.0 < length catalogue.now.tables }
    ensures { length (columns_at catalogue.now table) ≤ 64 }
{
    let _columns = catalogue.columns(table);
}

/// Makes a constraint that holds over its table's rows, with its index.
pub fn make_access<I: Indexes, L: Ledger>(
    alloc: Global,
    catalogue: &mut Catalogue,
    rows: &List<Rows>,
    indexes: &mut I,
    limits: &Limits,
    spec: &AccessSpec,
    steps: &mut Steps<L>,
) -> Result<AccessId, Fail>
    requires fetches { 1 ≤ length spec.now.fetched }
    requires tables { length rows.now ≡ length catalogue.old.tables }
    ensures refused { IsRefusedAs result (option_or (admit_refusal limits.now catalogue.old spec.now)
        (already_broken (slice_index_or rows.now (new_access catalogue.old spec.now).table.0 [])
        (new_access catalogue.old spec.now))) }
    ensures id { IfOk result (λ id. id.0 ≡ catalogue.old.created) }
    ensures ok { OnOk result (catalogue.new ≡ schema_with_access catalogue.old (new_access catalogue.old spec.now)) }
    ensures index { OnOk result (AddsIndex (slice_index_or rows.now (new_access catalogue.old spec.now).table.0 [])
        (new_access catalogue.old spec.now) (I.seen indexes.old) (I.seen indexes.new)) }
    ensures err { OnErr result (catalogue.new ≡ catalogue.old) }
    ensures indexes_stay { OnErr result (I.seen indexes.new ≡ I.seen indexes.old) }
    ensures cost { result ≢ Err Fail.NoMemory → steps.new ≡ steps.old
        + (if is_none (admit_refusal limits.now catalogue.old spec.now) then length
        (slice_index_or rows.now (new_access catalogue.old spec.now).table.0 []) else 0) }
    ensures at_most { steps.new ≤ steps.old
        + (if is_none (admit_refusal limits.now catalogue.old spec.now) then length
        (slice_index_or rows.now (new_access catalogue.old spec.now).table.0 []) else 0) }
    ensures no_fewer { steps.old ≤ steps.new }
{
    let access = catalogue.admit(alloc, limits, spec)?;
    // A constraint over so few columns may have an index.
    recall_few_columns(catalogue, access.table);
    let table = access.table.0 as usize;
    match put_index(alloc, access, &rows.as_slice()[table], indexes, steps) {
        Ok(()) => put_access(alloc, catalogue, indexes, limits, spec),
        Err(why) => Err(why),
    }
}

/// Drops a constraint and its index. Where its name is live it takes no memory.
pub fn drop_index<I: Indexes>(
    alloc: Global,
    catalogue: &mut Catalogue,
    indexes: &mut I,
    name: &Name,
) -> Result<(), Fail>
    requires { length (I.seen indexes.old) ≡ length catalogue.old.accesses }
    ensures refused { IsRefusedAs result (drop_access_refusal catalogue.old name.now) }
    ensures live { IsTrue (has_access catalogue.old name.now) → IsOk result }
    ensures ok { OnOk result (catalogue.new ≡ schema_without_access catalogue.old name.now) }
    ensures index { OnOk result (DropsIndex catalogue.old.accesses
        (schema_without_access catalogue.old name.now).accesses (I.seen indexes.old) (I.seen indexes.new)) }
    ensures err { OnErr result (catalogue.new ≡ catalogue.old) }
    ensures indexes_stay { OnErr result ((I.seen indexes.new) ≡ (I.seen indexes.old)) }
{
    let place = catalogue.position_named(name);
    catalogue.drop_access(alloc, name)?;
    match place {
        Some(place) => {
            indexes.drop_at(place);
        }
        None => unreachable!(),
    }
    Ok(())
}
