// The rows of the records under a header.
ghost use Rattle.std.specs.Prelude.{◌≡◌, ◌≤◌, ◌<◌, ◌+◌, ◌^◌, not, None, false, true, map, length, slice_get, option_map, All, IfOk, MatchOption};
ghost use Rattle.std.specs.Option.{is_some, option_and_then, option_map_or};
ghost use Rattle.csv.specs.Records.{fields_of};
ghost use Rattle.csv_load.specs.Fields.{cell};
ghost use Rattle.csv_load.specs.CsvRows.{is_bad, bad_column, fault_in, fault_under, fault_of, rows_in};
ghost use Rattle.csv_load.specs.Layouts.{SlotsTell, has_values, row_of_slots, the_columns, value_at as value_in_slot};
ghost use Rattle.beas_core.specs.Results.{IsRefusedAs};
ghost use Rattle.catalogue.specs.Database.{RowFits};
ghost use Rattle.csv_load.specs.Reading.{weight};

use crate::fields::{field_at, has_value, value_of};
use crate::header::{Layout, Slot, layout_of};
use crate::records::Records;
use beas_core::{Column, Duplicate, Fail, Limits, List, NoMemory, Refusal, Row, Value};
use csv::ByteRecord;
use std::alloc::Global;

/// Whether the field at a place has no value in the column.
fn is_bad_at(column: &Column, fields: &ByteRecord, place: usize, longest: u32) -> bool
    ensures { result ≡ option_map_or (is_bad longest column.now) (slice_get (fields_of fields.now) place) false }
{
    match field_at(fields, place) {
        Some(field) => !has_value(field, column.kind, longest),
        None => false,
    }
}

/// The first column whose field has no value of its kind.
fn bad_column<'a>(columns: &[&'a Column], fields: &ByteRecord, longest: u32) -> Option<&'a Column>
    ensures { option_map (λ column. column.now) result
        ≡ bad_column longest (the_columns columns.now) (fields_of fields.now) }
{
    for (place, column) in columns.iter().enumerate() {
        if is_bad_at(column, fields, place, longest) {
            return Some(*column);
        }
    }
    None
}

/// The value that a record has in a slot.
fn value_at(
    alloc: Global,
    slot: &Slot,
    fields: &ByteRecord,
    longest: u32,
) -> Result<Option<Value>, NoMemory>
    ensures { IfOk result (λ value. value ≡ value_in_slot longest (fields_of fields.now) slot.now) }
{
    match field_at(fields, slot.position) {
        Some(field) => value_of(alloc, field, slot.kind, longest),
        None => Ok(None),
    }
}

/// The row of a record, where it has a value in each slot.
fn values_of(
    alloc: Global,
    slots: &[Slot],
    fields: &ByteRecord,
    longest: u32,
) -> Result<Option<Row>, NoMemory>
    ensures { IfOk result (λ found. MatchOption found
        (has_values longest slots.now (fields_of fields.now) ≡ false)
        (λ row. (has_values longest slots.now (fields_of fields.now) ≡ true)
        × (row ≡ row_of_slots longest slots.now (fields_of fields.now)))) }
{
    let mut values = Vec::with_capacity(alloc, slots.len())?;
    for slot in slots {
        match value_at(alloc, slot, fields, longest)? {
            Some(value) => values.push(value)?,
            None => return Ok(None),
        }
    }
    Ok(Some(List::from_vec(values)))
}

/// The row of record `nth`.
fn row_of(
    alloc: Global,
    layout: &Layout,
    nth: u32,
    fields: &ByteRecord,
    longest: u32,
) -> Result<Row, Fail>
    requires few_columns { length layout.now.in_file.items < 2 ^ 32 }
    requires few_fields { length (fields_of fields.now) < 2 ^ 32 }
    requires slots { SlotsTell longest layout.now }
    ensures rows { IfOk result (λ row. row ≡ row_of_slots longest layout.now.slots.items (fields_of fields.now)) }
    ensures refused { IsRefusedAs result
        (fault_in longest (the_columns layout.now.in_file.items) nth (fields_of fields.now)) }
{
    let found = fields.len();
    let wanted = layout.in_file.len();
    if found != wanted {
        return Err(Fail::Refused(Refusal::RecordWidth {
            nth,
            found: found as u32,
            wanted: wanted as u32,
        }));
    }
    // each field is read once, by the slots; only a record without a row is read again, in the file's order
    if let Some(row) = values_of(alloc, layout.slots.as_slice(), fields, longest)? {
        return Ok(row);
    }
    match bad_column(layout.in_file.as_slice(), fields, longest) {
        Some(column) => {
            let column = column.name.copy(alloc)?;
            Err(Fail::Refused(Refusal::BadField { nth, column }))
        }
        None => unreachable!(),
    }
}

/// The rows of all records that are left. They are numbered from 1.
fn rows_left(
    alloc: Global,
    layout: &Layout,
    records: &mut Records,
    longest: u32,
) -> Result<List<Row>, Fail>
    requires few { weight records.old < 2 ^ 32 }
    requires room { length layout.now.in_file.items + weight records.old ≤ 2 ^ 32 }
    requires slots { SlotsTell longest layout.now }
    ensures rows { IfOk result (λ rows. rows ≡ map (row_of_slots longest layout.now.slots.items) records.old) }
    ensures refused { IsRefusedAs result (fault_under longest (the_columns layout.now.in_file.items) records.old) }
{
    let mut rows = Vec::new(alloc);
    let mut fields = ByteRecord::new(alloc);
    let mut nth: u32 = 0;
    while records.read(&mut fields)? {
        nth += 1;
        rows.push(row_of(alloc, layout, nth, &fields, longest)?)?;
    }
    Ok(List::from_vec(rows))
}

/// The rows of a CSV file for a table with these columns, in the file's order.
///
/// One leading mark EF BB BF is dropped. The first record is the header: its fields are the column names, in any order
/// and any case. A value of an INTEGER column is an optional sign and digits, of a TEXT column UTF-8 of at most
/// `limits.text` bytes. So each row has the columns' number of values, each of its column's kind.
///
/// # Errors
///
/// The refusals, the first that holds: `HeaderMismatch`; then at the first faulty record, numbered from 1 after the
/// header, `RecordWidth`, or else `BadField` at its first faulty field in the file's order. `NoMemory` where memory
/// runs out.
pub fn rows_of(
    alloc: Global,
    bytes: &[u8],
    columns: &List<Column>,
    limits: &Limits,
) -> Result<List<Row>, Fail>
    requires { length bytes.now < 2 ^ 32 }
    ensures rows { IfOk result (λ rows. rows ≡ rows_in limits.now.text columns.now bytes.now) }
    ensures fit { IfOk result (All (RowFits columns.now)) }
    ensures refused { IsRefusedAs result (fault_of limits.now.text columns.now bytes.now) }
{
    let mut records = Records::of(alloc, bytes);
    let mut header = ByteRecord::new(alloc);
    if !records.read(&mut header)? {
        return Err(Fail::Refused(Refusal::HeaderMismatch));
    }
    let layout = match layout_of(alloc, columns.as_slice(), &header)? {
        Some(layout) => layout,
        None => return Err(Fail::Refused(Refusal::HeaderMismatch)),
    };
    rows_left(alloc, &layout, &mut records, limits.text)
}
