// Calls of the rows of a table.
use beas_core::{Fail, List, NoMemory, Row, Steps, Value};
use row_store::Rows;
use std::alloc::Global;
use std::sync::ledger::Ledger;

/// Rows of one integer each, what came of the last change, and how many rows it left where they were.
#[derive(Drop)]
pub struct Table {
    rows: Rows,
    ending: &'static str,
    left: usize,
}

fn row_of(alloc: Global, word: &str) -> Result<Row, NoMemory> {
    let mut row = List::new(alloc);
    row.push(Value::Int(word.parse::<i64>().unwrap_or(0)))?;
    Ok(row)
}

fn rows_of(alloc: Global, words: &str) -> Result<List<Row>, NoMemory> {
    let mut rows = List::new(alloc);
    for word in words.split(',') {
        rows.push(row_of(alloc, word)?)?;
    }
    Ok(rows)
}

/// What comes of a change.
fn ending(outcome: Result<(), Fail>) -> Result<&'static str, NoMemory> {
    let ending = match &outcome {
        Ok(()) => Ok("ok"),
        Err(Fail::Refused(_)) => Ok("refused"),
        Err(Fail::NoMemory) => Err(NoMemory),
    };
    drop(outcome);
    ending
}

fn number_in(row: &Row) -> i64 {
    match row.as_slice() {
        [Value::Int(number)] => *number,
        _ => 0,
    }
}

impl Table {
    /// No rows.
    pub fn new(alloc: Global) -> Table {
        Table {
            rows: Rows::new(alloc),
            ending: "ok",
            left: 0,
        }
    }

    /// Moves rows to the end, all or none, and notes how many stay.
    fn append(&mut self, alloc: Global, words: &str, limit: u32) -> Result<&'static str, NoMemory> {
        let mut more = rows_of(alloc, words)?;
        let ending = ending(self.rows.append(alloc, &mut more, limit))?;
        self.left = more.len();
        Ok(ending)
    }

    /// Makes a change by its name, where its places are those of rows, and notes what comes of it.
    pub fn change(
        &mut self,
        alloc: Global,
        name: &str,
        first: &str,
        second: u32,
    ) -> Result<(), NoMemory> {
        let place = first.parse::<u32>().unwrap_or(0);
        let len = self.rows.len();
        self.ending = "ok";
        self.left = 0;
        match name {
            "push" => self.ending = ending(self.rows.push(alloc, row_of(alloc, first)?, second))?,
            "append" => self.ending = self.append(alloc, first, second)?,
            "swap" if place < len && second < len => self.rows.swap(place, second),
            "remove" if place < len => self.rows.remove(place),
            "truncate" if place <= len => self.rows.truncate(place),
            "swap" | "remove" | "truncate" => self.ending = "no such place",
            _ => self.ending = "no such call",
        }
        Ok(())
    }

    /// The rows, with what came of the last change.
    pub fn line<L: Ledger>(&self, alloc: Global, steps: &mut Steps<L>) -> Result<String, NoMemory> {
        let (ending, left) = (self.ending, self.left);
        let mut said = format!(in alloc; "{ending}, {left} left, {} rows:", self.rows.len())?;
        for i in 0..self.rows.len() {
            let number = number_in(self.rows.row(i, steps));
            said.push_str(format!(in alloc; " {number}")?.as_str())?;
        }
        Ok(said)
    }
}
