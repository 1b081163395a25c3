// What the last report tells, part by part.
ghost use Rattle.std.specs.Prelude.{◌≡◌, length, option_map};
ghost use Rattle.aggregate.specs.declared.cell.Cell.TheVariants.{Plain};
ghost use Rattle.beas_library.specs.Shown.{shown};
ghost use Rattle.beas_library.specs.Told.{at_in, bound_told, cell_told, count_told, name_told, names_told, pair_told, place_told, plan_told, reads_told, refusal_told, session_told};

use crate::engine::Engine;
use aggregate::Cell;
use beas_core::{List, Name, Refusal, Row, Value};
use report::Report;

/// What stands in a cell of an answer.
#[derive(Clone, Copy, Debug)]
pub enum Shown<'a> {
    Integer(i64),
    Text(&'a str),
    Count(u64),
    Sum(i128),
}

impl Engine {
    /// The last report.
    pub fn report(&self) -> Option<&Report>
        ensures { option_map (λ report. report.now) result ≡ self.now.report }
    {
        self.report.as_ref()
    }

    /// The number of the last statement that was reported on. It stands still at 4,294,967,295.
    pub fn number(&self) -> Option<u32>
        ensures { result ≡ option_map (λ _. self.now.number) self.now.report }
    {
        match &self.report {
            Some(_) => Some(self.number),
            None => None,
        }
    }

    /// The number that was announced.
    pub fn bound(&self) -> Option<u128>
        ensures { result ≡ bound_told self.now.report }
    {
        match &self.report {
            Some(Report::Explained { bound, .. }) => Some(*bound),
            Some(Report::Answered { bound, .. }) => Some(*bound),
            Some(Report::Grouped { bound, .. }) => Some(*bound),
            Some(Report::Opened { bound, .. }) => Some(*bound),
            _ => None,
        }
    }

    /// How many tuples were read.
    pub fn reads(&self) -> Option<u128>
        ensures { result ≡ reads_told self.now.report }
    {
        match &self.report {
            Some(Report::Answered { reads, .. }) => Some(*reads),
            Some(Report::Grouped { reads, .. }) => Some(*reads),
            _ => None,
        }
    }

    /// The lines of the plan. They are none where they weren't asked for.
    pub fn plan(&self) -> Option<&str>
        ensures { option_map (λ plan. plan.now) result ≡ plan_told self.now.report }
    {
        match &self.report {
            Some(Report::Explained { plan, .. }) => Some(plan.as_str()),
            Some(Report::Answered { plan, .. }) => Some(plan.as_str()),
            Some(Report::Grouped { plan, .. }) => Some(plan.as_str()),
            _ => None,
        }
    }

    /// How many: rows that changed, members of the greatest group, pairs, rows of an answer, or columns that make a query
    /// covered.
    pub fn count(&self) -> Option<u64>
        ensures { result ≡ count_told self.now.report }
    {
        match &self.report {
            Some(Report::Changed { rows }) => Some(u64::from(*rows)),
            Some(Report::Greatest { most }) => Some(u64::from(*most)),
            Some(Report::Pairs { found }) => Some(found.len() as u64),
            Some(Report::Answered { rows, .. }) => Some(rows.len() as u64),
            Some(Report::Grouped { rows, .. }) => Some(rows.len() as u64),
            Some(
                Report::Specialised {
                    places: Some(places),
                },
            ) => Some(places.len() as u64),
            _ => None,
        }
    }

    /// The session.
    pub fn session(&self) -> Option<u32>
        ensures { result ≡ session_told self.now.report }
    {
        match &self.report {
            Some(Report::Opened { session, .. }) => Some(*session),
            Some(Report::Probed { session }) => Some(*session),
            _ => None,
        }
    }

    /// Why the statement was refused.
    pub fn refusal(&self) -> Option<&Refusal>
        ensures { option_map (λ why. why.now) result ≡ refusal_told self.now.report }
    {
        match &self.report {
            Some(Report::Refused { why }) => Some(why),
            _ => None,
        }
    }

    /// How many columns an answer has.
    pub fn columns(&self) -> Option<u64>
        ensures { result ≡ option_map length (names_told self.now.report) }
    {
        match &self.report {
            Some(Report::Answered { header, .. }) => Some(header.len() as u64),
            Some(Report::Grouped { header, .. }) => Some(header.len() as u64),
            _ => None,
        }
    }

    /// The name of a column of an answer, counted from 0.
    pub fn column_name(&self, column: usize) -> Option<&str>
        ensures { option_map (λ name. name.now) result ≡ name_told self.now.report column }
    {
        match &self.report {
            Some(Report::Answered { header, .. }) => match header.as_slice().get(column) {
                Some(name) => Some(name.as_str()),
                None => None,
            },
            Some(Report::Grouped { header, .. }) => match header.as_slice().get(column) {
                Some(name) => Some(name.as_str()),
                None => None,
            },
            _ => None,
        }
    }

    /// The cell of an answer in this row and column, counted from 0.
    pub fn cell(&self, row: usize, column: usize) -> Option<Shown<'_>>
        ensures { cell_told self.now.report row column ≡ option_map shown result }
    {
        match &self.report {
            Some(Report::Answered { rows, .. }) => value_at(rows.as_slice(), row, column),
            Some(Report::Grouped { rows, .. }) => cell_at(rows.as_slice(), row, column),
            _ => None,
        }
    }

    /// A pair of columns with the size of its greatest group, counted from 0.
    pub fn pair(&self, k: usize) -> Option<&(Name, Name, u32)>
        ensures { option_map (λ pair. pair.now) result ≡ pair_told self.now.report k }
    {
        match &self.report {
            Some(Report::Pairs { found }) => found.as_slice().get(k),
            _ => None,
        }
    }

    /// A column that makes the query covered, with the number of its atom, counted from 0.
    pub fn place(&self, k: usize) -> Option<&(u32, Name)>
        ensures { option_map (λ place. place.now) result ≡ place_told self.now.report k }
    {
        match &self.report {
            Some(
                Report::Specialised {
                    places: Some(places),
                },
            ) => places.as_slice().get(k),
            _ => None,
        }
    }
}

/// The value in this row and column.
fn value_at(rows: &[Row], row: usize, column: usize) -> Option<Shown<'_>>
    ensures { option_map Plain (at_in rows.now row column) ≡ option_map shown result }
{
    match rows.get(row)?.as_slice().get(column)? {
        Value::Int(number) => Some(Shown::Integer(*number)),
        Value::Str(text) => Some(Shown::Text(text.as_str())),
    }
}

/// The cell in this row and column.
fn cell_at(rows: &[List<Cell>], row: usize, column: usize) -> Option<Shown<'_>>
    ensures { at_in rows.now row column ≡ option_map shown result }
{
    match rows.get(row)?.as_slice().get(column)? {
        Cell::Plain(Value::Int(number)) => Some(Shown::Integer(*number)),
        Cell::Plain(Value::Str(text)) => Some(Shown::Text(text.as_str())),
        Cell::Count(count) => Some(Shown::Count(*count)),
        Cell::Sum(sum) => Some(Shown::Sum(*sum)),
    }
}
