// The tables of drawn cases, r, s and t. Each has the columns a and b of INTEGER, and c and d of TEXT; where they are
// wide, also e and f of INTEGER, and g and h of TEXT. Their values are drawn as numbers below 6, which stand for values
// of either type in value order.
use crate::draws::Draws;
use beas_core::{List, NoMemory, Row, Text, Value};
use std::alloc::Global;

/// How many tables there are.
pub const TABLES: u8 = 3;

/// How many columns each table has that isn't wide.
pub const COLUMNS: u8 = 4;

/// How many columns a wide table has.
const WIDEST: u8 = 8;

/// How many values there are of each type.
pub const VALUES: u8 = 6;

/// How many columns tables have, how many values are drawn in each, and in how many turns at most a key is drawn.
#[derive(Clone, Copy)]
pub struct Shape {
    pub columns: u8,
    pub values: u8,
    pub key_turns: u8,
}

/// A row of a table, as the numbers that stand for its values.
#[derive(Clone, Copy)]
pub struct Fact {
    pub table: u8,
    numbers: [u8; WIDEST as usize],
}

/// The name of a table by its number, from 0 on.
pub fn table_name(table: u8) -> &'static str {
    match table {
        0 => "r",
        1 => "s",
        _ => "t",
    }
}

/// The name of a column by its number, from 0 on, which is the same in each table.
pub fn column_name(column: u8) -> &'static str {
    match column {
        0 => "a",
        1 => "b",
        2 => "c",
        3 => "d",
        4 => "e",
        5 => "f",
        6 => "g",
        _ => "h",
    }
}

/// Whether a column is of INTEGER.
fn is_integer(column: u8) -> bool {
    column % 4 < 2
}

fn integer(number: u8) -> i64 {
    match number {
        0 => i64::MIN,
        1 => -1,
        2 => 0,
        3 => 7,
        4 => 10,
        _ => i64::MAX,
    }
}

/// A text, and how it is spelled.
fn words(number: u8) -> (&'static str, &'static str) {
    match number {
        0 => ("", "''"),
        1 => ("'", "''''"),
        2 => ("10", "'10'"),
        3 => ("7", "'7'"),
        4 => ("a, b", "'a, b'"),
        _ => ("é", "'é'"),
    }
}

/// The value that a number stands for in a column.
pub fn value(alloc: Global, column: u8, number: u8) -> Result<Value, NoMemory> {
    if is_integer(column) {
        Ok(Value::Int(integer(number)))
    } else {
        Ok(Value::Str(Text::from_str(alloc, words(number).0)?))
    }
}

/// Adds the literal of a value.
pub fn push_literal(
    alloc: Global,
    text: &mut Text,
    column: u8,
    number: u8,
) -> Result<(), NoMemory> {
    if is_integer(column) {
        text.push_str(format!(in alloc; "{}", integer(number))?.as_str())
    } else {
        text.push_str(words(number).1)
    }
}

/// Adds texts, one after the other.
pub fn push_all(text: &mut Text, parts: &[&str]) -> Result<(), NoMemory> {
    for part in parts {
        text.push_str(part)?;
    }
    Ok(())
}

/// The text that some texts make, one after the other.
pub fn text_of(alloc: Global, parts: &[&str]) -> Result<Text, NoMemory> {
    let mut text = Text::new(alloc);
    push_all(&mut text, parts)?;
    Ok(text)
}

/// Adds a number.
pub fn push_number(alloc: Global, text: &mut Text, number: usize) -> Result<(), NoMemory> {
    text.push_str(format!(in alloc; "{number}")?.as_str())
}

/// What stands before an item of a list.
pub fn comma(place: usize) -> &'static str {
    if place > 0 { ", " } else { "" }
}

/// Adds the names of columns in parentheses.
pub fn push_columns(text: &mut Text, columns: &[u8]) -> Result<(), NoMemory> {
    text.push_str("(")?;
    for (place, column) in columns.iter().enumerate() {
        push_all(text, &[comma(place), column_name(*column)])?;
    }
    text.push_str(")")
}

impl Shape {
    /// The tables of scenes.
    pub fn narrow() -> Shape {
        Shape {
            columns: COLUMNS,
            values: VALUES,
            key_turns: 4,
        }
    }

    /// Wide tables with few values, so that rows have long keys in common.
    pub fn wide() -> Shape {
        Shape {
            columns: WIDEST,
            values: 3,
            key_turns: 14,
        }
    }
}

/// Adds the columns of a table with their types in parentheses.
pub fn push_creation(text: &mut Text, shape: Shape) -> Result<(), NoMemory> {
    text.push_str("(")?;
    for column in 0..shape.columns {
        let kind = if is_integer(column) { " INT" } else { " TEXT" };
        let parts = &[comma(usize::from(column)), column_name(column), kind];
        push_all(text, parts)?;
    }
    text.push_str(")")
}

impl Fact {
    /// A row of a table with drawn values.
    pub fn draw(draws: &mut Draws, table: u8, shape: Shape) -> Fact {
        let mut numbers = [0; WIDEST as usize];
        for number in numbers.iter_mut().take(usize::from(shape.columns)) {
            *number = draws.below(shape.values.max(1));
        }
        Fact { table, numbers }
    }

    /// The row with the same values in another table.
    pub fn in_table(&self, table: u8) -> Fact {
        Fact {
            table,
            numbers: self.numbers,
        }
    }

    /// The number that stands for the value in a column.
    pub fn at(&self, column: u8) -> u8 {
        self.numbers.get(usize::from(column)).copied().unwrap_or(0)
    }

    /// The numbers that stand for the values in some columns.
    pub(crate) fn numbers(&self, alloc: Global, columns: &[u8]) -> Result<Vec<u8>, NoMemory> {
        let mut numbers = Vec::new(alloc);
        for column in columns {
            numbers.push(self.at(*column))?;
        }
        Ok(numbers)
    }

    /// The values in some columns.
    pub fn values(&self, alloc: Global, columns: &[u8]) -> Result<Row, NoMemory> {
        let mut values = List::new(alloc);
        for column in columns {
            values.push(value(alloc, *column, self.at(*column))?)?;
        }
        Ok(values)
    }

    /// Adds the literals of some columns in parentheses.
    pub(crate) fn push_tuple(
        &self,
        alloc: Global,
        text: &mut Text,
        columns: &[u8],
    ) -> Result<(), NoMemory> {
        text.push_str("(")?;
        for (place, column) in columns.iter().enumerate() {
            text.push_str(comma(place))?;
            push_literal(alloc, text, *column, self.at(*column))?;
        }
        text.push_str(")")
    }
}
