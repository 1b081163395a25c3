// What words of a case stand for.
use crate::named_case::NamedCase;
use crate::wrong::Wrong;
use beas_core::{ColumnId, List, Operand, Place, Sign, TableId, Text, Value};
use std::alloc::Global;

/// The number that a word spells.
pub fn number_of(word: &str) -> Result<u32, Wrong> {
    match word.parse::<u32>() {
        Ok(number) => Ok(number),
        Err(_) => Err(Wrong::Line(0)),
    }
}

/// The table with this name.
pub fn table_at(case: &NamedCase, name: &str) -> Result<TableId, Wrong> {
    let found = case.tables.iter().position(|table| table.is_named(name));
    match u32::try_from(found.unwrap_or(usize::MAX)) {
        Ok(number) => Ok(TableId(number)),
        Err(_) => Err(Wrong::Line(0)),
    }
}

// Where a name stands among some.
fn position_of(names: &[String], name: &str) -> Result<u16, Wrong> {
    let found = names.iter().position(|other| other.as_str() == name);
    match u16::try_from(found.unwrap_or(usize::MAX)) {
        Ok(number) => Ok(number),
        Err(_) => Err(Wrong::Line(0)),
    }
}

/// The column of a table with this name.
pub fn column_at(case: &NamedCase, table: TableId, name: &str) -> Result<ColumnId, Wrong> {
    let number = position_of(case.columns_of(table), name)?;
    Ok(ColumnId(number))
}

/// The columns of a table that follow the first of some words.
pub fn columns_at(
    alloc: Global,
    case: &NamedCase,
    table: TableId,
    words: &[&str],
) -> Result<List<ColumnId>, Wrong> {
    let names = match words {
        [_, names @ ..] => names,
        [] => words,
    };
    let mut columns = List::new(alloc);
    for name in names {
        columns.push(column_at(case, table, name)?)?;
    }
    Ok(columns)
}

/// The place NAME.COLUMN of the last block.
pub fn place_at(case: &NamedCase, word: &str) -> Result<Place, Wrong> {
    let (name, column) = match word.split_once('.') {
        Some(parts) => parts,
        None => return Err(Wrong::Line(0)),
    };
    let named = match case.blocks.last() {
        Some(named) => named,
        None => return Err(Wrong::Line(0)),
    };
    let atom = position_of(&named.atoms, name)?;
    match named.block.atoms.as_slice().get(usize::from(atom)) {
        Some(found) => Ok(Place {
            atom,
            column: column_at(case, found.table, column)?,
        }),
        None => Err(Wrong::Line(0)),
    }
}

/// The value that a word spells: a number, or a text after a quote.
pub fn value_of(alloc: Global, word: &str) -> Result<Value, Wrong> {
    match word.strip_prefix('\'') {
        Some(text) => Ok(Value::Str(Text::from_str(alloc, text)?)),
        None => match word.parse::<i64>() {
            Ok(number) => Ok(Value::Int(number)),
            Err(_) => Err(Wrong::Line(0)),
        },
    }
}

/// The operand that a word spells: a place, or a value.
pub fn operand_of(alloc: Global, case: &NamedCase, word: &str) -> Result<Operand, Wrong> {
    match place_at(case, word) {
        Ok(place) => Ok(Operand::At(place)),
        Err(_) => Ok(Operand::Fixed(value_of(alloc, word)?)),
    }
}

/// The sign that a word spells.
pub fn sign_of(word: &str) -> Result<Sign, Wrong> {
    match word {
        "=" => Ok(Sign::Equal),
        "<>" => Ok(Sign::Differs),
        "<" => Ok(Sign::Less),
        "<=" => Ok(Sign::AtMost),
        ">" => Ok(Sign::More),
        ">=" => Ok(Sign::AtLeast),
        _ => Err(Wrong::Line(0)),
    }
}
