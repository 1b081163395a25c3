// Cases, read from lines.
use aggregate::Fold;
use beas_core::{List, NoMemory, Row, Text, Value};
use std::alloc::{AllocError, AllocFailed, Global};

/// Rows that are to be grouped.
#[derive(Drop)]
pub struct Case {
    pub name: String,
    pub keys: u16,
    pub folds: List<Fold>,
    pub rows: Vec<Row>,
}

/// Why a text has no cases.
#[derive(Clone, Copy)]
pub enum Wrong {
    /// This line, from 1 on, can't be read.
    Line(usize),
    NoMemory,
}

impl From<NoMemory> for Wrong {
    fn from(_: NoMemory) -> Wrong {
        Wrong::NoMemory
    }
}

impl From<AllocError> for Wrong {
    fn from(_: AllocError) -> Wrong {
        Wrong::NoMemory
    }
}

impl<T: Drop> From<AllocFailed<T>> for Wrong {
    fn from(_: AllocFailed<T>) -> Wrong {
        Wrong::NoMemory
    }
}

/// The cases of a text.
pub fn cases_of(alloc: Global, text: &str) -> Result<Vec<Case>, Wrong> {
    let mut cases = Vec::new(alloc);
    let mut number = 0_usize;
    for line in text.split('\n') {
        number = number.saturating_add(1);
        if !read_line(alloc, &mut cases, line)? {
            return Err(Wrong::Line(number));
        }
    }
    Ok(cases)
}

// A case without rows.
fn case_named(alloc: Global, name: &str) -> Result<Case, Wrong> {
    Ok(Case {
        name: String::from_str(alloc, name)?,
        keys: 0,
        folds: List::new(alloc),
        rows: Vec::new(alloc),
    })
}

// Takes a line up, if it isn't empty or a remark. Whether it could be read.
fn read_line(alloc: Global, cases: &mut Vec<Case>, line: &str) -> Result<bool, Wrong> {
    if line.is_empty() || line.starts_with('#') {
        return Ok(true);
    }
    match line.split_once(' ') {
        Some(("case", name)) => add_case(alloc, cases, name),
        Some((word, rest)) => read_last(alloc, cases, word, rest),
        None => Ok(false),
    }
}

fn add_case(alloc: Global, cases: &mut Vec<Case>, name: &str) -> Result<bool, Wrong> {
    cases.push(case_named(alloc, name)?)?;
    Ok(true)
}

// Takes up a line of the last case.
fn read_last(alloc: Global, cases: &mut Vec<Case>, word: &str, rest: &str) -> Result<bool, Wrong> {
    match cases.last_mut() {
        Some(case) => read_part(alloc, case, word, rest),
        None => Ok(false),
    }
}

fn read_part(alloc: Global, case: &mut Case, word: &str, rest: &str) -> Result<bool, Wrong> {
    match word {
        "keys" => Ok(read_keys(case, rest)),
        "folds" => read_folds(case, rest),
        "row" => read_row(alloc, case, rest),
        _ => Ok(false),
    }
}

fn read_row(alloc: Global, case: &mut Case, rest: &str) -> Result<bool, Wrong> {
    match row_of(alloc, rest)? {
        Some(row) => {
            case.rows.push(row)?;
            Ok(true)
        }
        None => Ok(false),
    }
}

fn read_keys(case: &mut Case, word: &str) -> bool {
    match word.parse::<u16>() {
        Ok(number) => {
            case.keys = number;
            true
        }
        Err(_) => false,
    }
}

fn fold_of(word: &str) -> Option<Fold> {
    match word {
        "plain" => Some(Fold::Plain),
        "count" => Some(Fold::Count),
        "sum" => Some(Fold::Sum),
        "least" => Some(Fold::Least),
        "greatest" => Some(Fold::Greatest),
        _ => None,
    }
}

fn read_folds(case: &mut Case, rest: &str) -> Result<bool, Wrong> {
    for word in rest.split(' ') {
        match fold_of(word) {
            Some(fold) => case.folds.push(fold)?,
            None => return Ok(false),
        }
    }
    Ok(true)
}

fn value_of(alloc: Global, word: &str) -> Result<Option<Value>, Wrong> {
    match word.strip_prefix('\'') {
        Some(text) => Ok(Some(Value::Str(Text::from_str(alloc, text)?))),
        None => match word.parse::<i64>() {
            Ok(number) => Ok(Some(Value::Int(number))),
            Err(_) => Ok(None),
        },
    }
}

fn read_value(alloc: Global, row: &mut Row, word: &str) -> Result<bool, Wrong> {
    match value_of(alloc, word)? {
        Some(value) => {
            row.push(value)?;
            Ok(true)
        }
        None => Ok(false),
    }
}

fn row_of(alloc: Global, rest: &str) -> Result<Option<Row>, Wrong> {
    let mut row = List::new(alloc);
    for word in rest.split(' ') {
        if !read_value(alloc, &mut row, word)? {
            return Ok(None);
        }
    }
    Ok(Some(row))
}
