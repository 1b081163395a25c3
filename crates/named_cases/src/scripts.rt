// Statements that fill a store with the tables, the constraints and the rows of a named case.
use beas_core::{Access, ColumnId, NoMemory, Row, TableId, Text, Value};
use named_blocks::{NamedCase, NamedTable};
use std::alloc::Global;

fn comma(place: usize) -> &'static str {
    if place > 0 { ", " } else { "" }
}

/// The type of a column, by the first of some rows. Without rows it is INT.
fn type_of(rows: &[Row], column: usize) -> &'static str {
    let first = match rows.first() {
        Some(row) => row.as_slice().get(column),
        None => None,
    };
    match first {
        Some(Value::Str(_)) => " TEXT",
        _ => " INT",
    }
}

fn push_table(text: &mut Text, table: &NamedTable, rows: &[Row]) -> Result<(), NoMemory> {
    text.push_str("CREATE TABLE ")?;
    text.push_str(table.name.as_str())?;
    text.push_str(" (")?;
    for (place, column) in table.columns.iter().enumerate() {
        text.push_str(comma(place))?;
        text.push_str(column.as_str())?;
        text.push_str(type_of(rows, place))?;
    }
    text.push_str(");")
}

/// Adds the names of some columns of a table in parentheses.
fn push_columns(text: &mut Text, names: &[String], columns: &[ColumnId]) -> Result<(), NoMemory> {
    text.push_str("(")?;
    for (place, column) in columns.iter().enumerate() {
        text.push_str(comma(place))?;
        match names.get(usize::from(column.0)) {
            Some(name) => text.push_str(name.as_str())?,
            None => text.push_str("?")?,
        }
    }
    text.push_str(")")
}

fn table_name(case: &NamedCase, table: TableId) -> &str {
    match case.tables.get(table.0 as usize) {
        Some(table) => table.name.as_str(),
        None => "?",
    }
}

/// Adds the statement that makes a constraint by this name.
fn push_access(
    alloc: Global,
    text: &mut Text,
    case: &NamedCase,
    access: &Access,
    name: &str,
) -> Result<(), NoMemory> {
    let names = case.columns_of(access.table);
    text.push_str("CREATE ACCESS ")?;
    text.push_str(name)?;
    text.push_str(" ON ")?;
    text.push_str(table_name(case, access.table))?;
    text.push_str(" ")?;
    push_columns(text, names, access.key.as_slice())?;
    text.push_str(" FETCH ")?;
    push_columns(text, names, access.fetched.as_slice())?;
    text.push_str(format!(in alloc; " LIMIT {};", access.bound)?.as_str())
}

/// Adds the statements that make the constraints with their ids. A constraint for each id between is made and dropped.
fn push_accesses(alloc: Global, text: &mut Text, case: &NamedCase) -> Result<(), NoMemory> {
    let mut next: u32 = 0;
    for access in case.accesses.as_slice() {
        push_gap(alloc, text, case, access, access.id.0.saturating_sub(next))?;
        push_access(alloc, text, case, access, access.name.as_str())?;
        next = access.id.0.saturating_add(1);
    }
    Ok(())
}

/// Adds statements that use up so many ids.
fn push_gap(
    alloc: Global,
    text: &mut Text,
    case: &NamedCase,
    access: &Access,
    count: u32,
) -> Result<(), NoMemory> {
    for _ in 0..count {
        push_access(alloc, text, case, access, "gap")?;
        text.push_str("DROP ACCESS gap;")?;
    }
    Ok(())
}

/// Adds the literal of a value. Texts of named cases have no quotes.
fn push_literal(alloc: Global, text: &mut Text, value: &Value) -> Result<(), NoMemory> {
    match value {
        Value::Int(number) => text.push_str(format!(in alloc; "{number}")?.as_str()),
        Value::Str(words) => {
            text.push_str("'")?;
            text.push_str(words.as_str())?;
            text.push_str("'")
        }
    }
}

fn push_row(alloc: Global, text: &mut Text, table: &NamedTable, row: &Row) -> Result<(), NoMemory> {
    text.push_str("INSERT INTO ")?;
    text.push_str(table.name.as_str())?;
    text.push_str(" VALUES (")?;
    for (place, value) in row.as_slice().iter().enumerate() {
        text.push_str(comma(place))?;
        push_literal(alloc, text, value)?;
    }
    text.push_str(");")
}

fn push_rows(
    alloc: Global,
    text: &mut Text,
    table: &NamedTable,
    rows: &[Row],
) -> Result<(), NoMemory> {
    for row in rows {
        push_row(alloc, text, table, row)?;
    }
    Ok(())
}

fn push_tables(text: &mut Text, case: &NamedCase) -> Result<(), NoMemory> {
    for (table, rows) in case.tables.iter().zip(&case.rows) {
        push_table(text, table, rows.as_slice())?;
    }
    Ok(())
}

/// Statements that make the tables, the constraints under their ids and the rows of a case.
pub fn script_of(alloc: Global, case: &NamedCase) -> Result<Text, NoMemory> {
    let mut text = Text::new(alloc);
    push_tables(&mut text, case)?;
    push_accesses(alloc, &mut text, case)?;
    for (table, rows) in case.tables.iter().zip(&case.rows) {
        push_rows(alloc, &mut text, table, rows.as_slice())?;
    }
    Ok(text)
}
