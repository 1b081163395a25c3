// Drawn scenes: a few rows and constraints.
use crate::plain::Plain;
use crate::tables::{Fact, TABLES};
use crate::updates::Twin;
use beas_core::{List, NoMemory, Row, Text};
use std::alloc::Global;

/// Adds 8 statements of INSERT.
fn add_rows(alloc: Global, twin: &mut Twin, statements: &mut Vec<Text>) -> Result<(), NoMemory> {
    for _ in 0..8 {
        statements.push(twin.insert(alloc)?.source)?;
    }
    Ok(())
}

/// Adds 20 statements of CREATE ACCESS. Where they are to have a key, those on s and t do.
fn add_constraints(
    alloc: Global,
    twin: &mut Twin,
    with_key: bool,
    statements: &mut Vec<Text>,
) -> Result<(), NoMemory> {
    for number in 0..20 {
        let name = format!(in alloc; "k{number}")?;
        let update = twin.create(alloc, name, 16, 30, with_key)?;
        statements.push(update.source)?;
    }
    Ok(())
}

/// Adds what `draw_scene` draws.
fn add_scene(alloc: Global, twin: &mut Twin, statements: &mut Vec<Text>) -> Result<(), NoMemory> {
    let with_key = twin.draws.below(8) > 0;
    add_rows(alloc, twin, statements)?;
    if with_key {
        statements.push(twin.create_whole(alloc)?.source)?;
    }
    add_constraints(alloc, twin, with_key, statements)
}

/// Statements that add a few drawn rows and constraints to the tables of `creations`, some of which are refused. In
/// most scenes a constraint without a key has all of r, and those on s and t have a key, so that a block over r guides
/// one over s or t.
pub fn draw_scene(alloc: Global, twin: &mut Twin) -> Result<Vec<Text>, NoMemory> {
    let mut statements = Vec::new(alloc);
    add_scene(alloc, twin, &mut statements)?;
    Ok(statements)
}

/// The rows of a table.
fn rows_of(alloc: Global, rows: &[Fact], table: u8) -> Result<List<Row>, NoMemory> {
    let mut found = List::new(alloc);
    for row in rows {
        if row.table == table {
            found.push(row.values(alloc, &[0, 1, 2, 3])?)?;
        }
    }
    Ok(found)
}

/// The rows of each table, in the order in which `creations` creates the tables.
pub fn tables_of(alloc: Global, plain: &Plain) -> Result<Vec<List<Row>>, NoMemory> {
    let mut tables = Vec::new(alloc);
    for table in 0..TABLES {
        tables.push(rows_of(alloc, &plain.rows, table)?)?;
    }
    Ok(tables)
}
