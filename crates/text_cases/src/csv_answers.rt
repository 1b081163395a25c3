// Rows and refusals in words.
use beas_core::{Column, Fail, Limits, List, NoMemory, Refusal, Row, Value};
use csv_load::rows_of;
use std::alloc::Global;

/// The greatest length of a text that is written whole.
const SHORT: usize = 40;

/// A number or a text.
fn value_text(alloc: Global, value: &Value) -> Result<String, NoMemory> {
    match value {
        Value::Int(number) => Ok(format!(in alloc; "{number}")?),
        Value::Str(text) => text_or_length(alloc, text.as_str()),
    }
}

/// A text in quotes, or its length where it is long.
fn text_or_length(alloc: Global, text: &str) -> Result<String, NoMemory> {
    if text.len() > SHORT {
        Ok(format!(in alloc; "<{} bytes>", text.len())?)
    } else {
        Ok(format!(in alloc; "{text:?}")?)
    }
}

/// Adds a row, its values in parentheses.
fn add_row(alloc: Global, said: &mut String, row: &Row) -> Result<(), NoMemory> {
    said.push_str(" (")?;
    for (i, value) in row.as_slice().iter().enumerate() {
        if i > 0 {
            said.push_str(", ")?;
        }
        said.push_str(value_text(alloc, value)?.as_str())?;
    }
    said.push_str(")")?;
    Ok(())
}

fn rows_text(alloc: Global, rows: &List<Row>) -> Result<String, NoMemory> {
    let mut said = format!(in alloc; "{} rows", rows.len())?;
    for row in rows.as_slice() {
        add_row(alloc, &mut said, row)?;
    }
    Ok(said)
}

fn refusal_text(alloc: Global, why: &Refusal) -> Result<String, NoMemory> {
    let number = why.number();
    match why {
        Refusal::RecordWidth { nth, found, wanted } => Ok(format!(in alloc;
            "refused {number} record {nth} has {found} fields, {wanted} wanted"
        )?),
        Refusal::BadField { nth, column } => {
            let column = column.as_str();
            Ok(format!(in alloc; "refused {number} record {nth} column {column}")?)
        }
        _ => Ok(format!(in alloc; "refused {number}")?),
    }
}

/// Rows, or why there are none.
fn outcome_text(alloc: Global, outcome: &Result<List<Row>, Fail>) -> Result<String, NoMemory> {
    match outcome {
        Ok(rows) => rows_text(alloc, rows),
        Err(Fail::Refused(why)) => refusal_text(alloc, why),
        Err(Fail::NoMemory) => Err(NoMemory),
    }
}

/// The rows of a file, or why it is refused.
pub fn answer(alloc: Global, bytes: &[u8], columns: &List<Column>) -> Result<String, NoMemory> {
    if bytes.len() > 1_000_000 {
        return Ok(format!(in alloc; "too long")?);
    }
    let outcome = rows_of(alloc, bytes, columns, &Limits::standard());
    let said = outcome_text(alloc, &outcome);
    drop(outcome);
    said
}
