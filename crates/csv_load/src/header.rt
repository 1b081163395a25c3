// The header of a file, held against the columns of a table.
ghost use Rattle.std.specs.Prelude.{◌≡◌, false, true, IfOk, MatchOption, map, option_map, slice_get};
ghost use Rattle.std.specs.List.{list_all, filter_map};
ghost use Rattle.std.specs.Option.{is_some, option_and_then, option_map_or};
ghost use Rattle.csv_load.specs.Fields.{names};
ghost use Rattle.csv.specs.Records.{fields_of};
ghost use Rattle.csv_load.specs.CsvRows.{column_of, place_of, in_file_order, is_header};
ghost use Rattle.csv_load.specs.Layouts.{slots_of, IsLayout};

use crate::fields::{field_at, names_column};
use beas_core::{ColType, Column, NoMemory};
use csv::ByteRecord;
use std::alloc::Global;

/// Where a column of the table stands in the file, and what its values are.
#[derive(Clone, Copy)]
pub struct Slot {
    pub position: usize,
    pub kind: ColType,
}

/// How the fields of a file's records stand for the columns of a table.
#[derive(Drop)]
pub struct Layout<'a> {
    /// The columns in the file's order.
    pub in_file: Vec<&'a Column>,
    /// The places of the columns in the table's order.
    pub slots: Vec<Slot>,
}

/// The one column that a header's field names.
fn column_of<'a>(columns: &'a [Column], field: &[u8]) -> Option<&'a Column>
    ensures { option_map (λ column. column.now) result ≡ column_of columns.now field.now }
{
    let mut found = None;
    for column in columns {
        if names_column(field, column) {
            if found.is_some() {
                return None;
            }
            found = Some(column);
        }
    }
    found
}

/// Whether the field at a place names the column.
fn is_named_at(header: &ByteRecord, place: usize, column: &Column) -> bool
    ensures { result ≡ option_map_or (λ field. names field column.now) (slice_get (fields_of header.now) place) false }
{
    match field_at(header, place) {
        Some(field) => names_column(field, column),
        None => false,
    }
}

/// The place of the one field that names a column.
fn place_of(header: &ByteRecord, column: &Column) -> Option<usize>
    ensures { result ≡ place_of (fields_of header.now) column.now }
{
    let mut found = None;
    for place in 0..header.len() {
        if is_named_at(header, place, column) {
            if found.is_some() {
                return None;
            }
            found = Some(place);
        }
    }
    found
}

/// The one column that the field at a place names.
fn column_at<'a>(columns: &'a [Column], header: &ByteRecord, place: usize) -> Option<&'a Column>
    ensures { option_map (λ column. column.now) result
        ≡ option_and_then (column_of columns.now) (slice_get (fields_of header.now) place) }
{
    match field_at(header, place) {
        Some(field) => column_of(columns, field),
        None => None,
    }
}

/// The columns in the file's order, where each field names one.
fn in_file_order<'a>(
    alloc: Global,
    columns: &'a [Column],
    header: &ByteRecord,
) -> Result<Option<Vec<&'a Column>>, NoMemory>
    ensures { IfOk result (λ found. MatchOption found
        (list_all (λ field. is_some (column_of columns.now field)) (fields_of header.now) ≡ false)
        (λ in_file. (list_all (λ field. is_some (column_of columns.now field)) (fields_of header.now) ≡ true)
        × (map (λ column. column.now) in_file.items ≡ in_file_order columns.now (fields_of header.now)))) }
{
    let mut in_file = Vec::new(alloc);
    for place in 0..header.len() {
        match column_at(columns, header, place) {
            Some(column) => in_file.push(column)?,
            None => return Ok(None),
        }
    }
    Ok(Some(in_file))
}

/// The places of the columns, where each is named once.
fn slots_of(
    alloc: Global,
    columns: &[Column],
    header: &ByteRecord,
) -> Result<Option<Vec<Slot>>, NoMemory>
    ensures { IfOk result (λ found. MatchOption found
        (list_all (λ column. is_some (place_of (fields_of header.now) column)) columns.now ≡ false)
        (λ slots. (list_all (λ column. is_some (place_of (fields_of header.now) column)) columns.now ≡ true)
        × (slots.items ≡ slots_of columns.now (fields_of header.now)))) }
{
    let mut slots = Vec::new(alloc);
    for column in columns {
        match place_of(header, column) {
            Some(place) => slots.push(Slot {
                position: place,
                kind: column.kind,
            })?,
            None => return Ok(None),
        }
    }
    Ok(Some(slots))
}

/// The layout of a header, where each of its fields names one column and each column is named by one field.
pub fn layout_of<'a>(
    alloc: Global,
    columns: &'a [Column],
    header: &ByteRecord,
) -> Result<Option<Layout<'a>>, NoMemory>
    ensures { IfOk result (λ layout. MatchOption layout (is_header columns.now (fields_of header.now) ≡ false)
        (λ layout. IsLayout columns.now (fields_of header.now) layout)) }
{
    let in_file = match in_file_order(alloc, columns, header)? {
        Some(in_file) => in_file,
        None => return Ok(None),
    };
    let slots = match slots_of(alloc, columns, header)? {
        Some(slots) => slots,
        None => return Ok(None),
    };
    Ok(Some(Layout { in_file, slots }))
}
