// Whole columns of an answer.
ghost use Rattle.std.specs.Prelude.{◌≡◌, ◌+◌, ◌≤◌, ℕ, IfNone, IfOk, IfSome, IsFalse, IsTrue, None, length, option_and_then, option_map};
ghost use Rattle.beas_library.specs.Columns.{AreItems, AreTexts, LacksItem, high_in, item_at, low_in};
ghost use Rattle.beas_library.specs.Shown.{shown};
ghost use Rattle.beas_library.specs.Told.{cell_told, count_in, integer_in, text_in};

use crate::engine::Engine;
use crate::told::Shown;
use beas_core::{NoMemory, Text};
use report::Report;
use std::alloc::Global;

/// What is read of each cell of a column.
pub trait Part<T> {
    ghost use Rattle.std.specs.Prelude.{Option};
    ghost use Rattle.aggregate.specs.declared.cell.Cell.{Cell};

    ghost part: { Cell → Option T };

    fn part_of(cell: Shown<'_>) -> Option<T>
        ensures { result ≡ part (shown cell.entry) };
}

pub struct Integers;

impl Part<i64> for Integers {
    ghost part = { integer_in };

    fn part_of(cell: Shown<'_>) -> Option<i64> {
        match cell {
            Shown::Integer(number) => Some(number),
            _ => None,
        }
    }
}

pub struct Counts;

impl Part<u64> for Counts {
    ghost part = { count_in };

    fn part_of(cell: Shown<'_>) -> Option<u64> {
        match cell {
            Shown::Count(count) => Some(count),
            _ => None,
        }
    }
}

/// The lower 64 bits of sums.
pub struct Lows;

impl Part<u64> for Lows {
    ghost part = { low_in };

    fn part_of(cell: Shown<'_>) -> Option<u64> {
        match cell {
            Shown::Sum(sum) => Some(sum.rem_euclid(1 << 64) as u64),
            _ => None,
        }
    }
}

/// The bits of sums above those.
pub struct Highs;

impl Part<i64> for Highs {
    ghost part = { high_in };

    fn part_of(cell: Shown<'_>) -> Option<i64> {
        match cell {
            Shown::Sum(sum) => Some(sum.div_euclid(1 << 64) as i64),
            _ => None,
        }
    }
}

impl Engine {
    /// How many rows an answer has.
    fn rows(&self) -> usize
        ensures { (row column : ℕ) → result ≤ row → cell_told self.now.report row column ≡ None }
    {
        match &self.report {
            Some(Report::Answered { rows, .. }) => rows.len(),
            Some(Report::Grouped { rows, .. }) => rows.len(),
            _ => 0,
        }
    }

    /// A part of the cell so many rows after the first.
    fn part_at<T, P: Part<T>>(&self, column: usize, first: usize, i: usize) -> Option<T>
        ensures { result ≡ option_and_then P.part (cell_told self.now.report (first + i) column) }
    {
        let rows = self.rows();
        if rows <= first || rows - first <= i {
            return None;
        }
        match self.cell(first + i, column) {
            Some(cell) => P::part_of(cell),
            None => None,
        }
    }

    /// Reads a part of each cell of a column, from a row on, and tells whether all of them have it; if not, what was written
    /// to is anything.
    fn read_column<T: Copy, P: Part<T>>(&self, column: usize, first: usize, into: &mut [T]) -> bool
        ensures all { IsTrue result → AreItems P.part self.now.report column first into.new }
        ensures none { IsFalse result → LacksItem P.part self.now.report column first (length into.old) }
        ensures len { length into.new ≡ length into.old }
    {
        for i in 0..into.len() {
            match self.part_at::<T, P>(column, first, i) {
                Some(part) => into[i] = part,
                None => return false,
            }
        }
        true
    }

    /// Reads integers of a column, from a row on, and tells whether there are as many; if not, what was written to is
    /// anything.
    pub fn integers(&self, column: usize, first: usize, into: &mut [i64]) -> bool
        ensures all { IsTrue result → AreItems integer_in self.now.report column first into.new }
        ensures none { IsFalse result → LacksItem integer_in self.now.report column first (length into.old) }
        ensures len { length into.new ≡ length into.old }
    {
        self.read_column::<i64, Integers>(column, first, into)
    }

    /// The same of counts.
    pub fn counts(&self, column: usize, first: usize, into: &mut [u64]) -> bool
        ensures all { IsTrue result → AreItems count_in self.now.report column first into.new }
        ensures none { IsFalse result → LacksItem count_in self.now.report column first (length into.old) }
        ensures len { length into.new ≡ length into.old }
    {
        self.read_column::<u64, Counts>(column, first, into)
    }

    /// The same of the lower 64 bits of sums.
    pub fn lows(&self, column: usize, first: usize, into: &mut [u64]) -> bool
        ensures all { IsTrue result → AreItems low_in self.now.report column first into.new }
        ensures none { IsFalse result → LacksItem low_in self.now.report column first (length into.old) }
        ensures len { length into.new ≡ length into.old }
    {
        self.read_column::<u64, Lows>(column, first, into)
    }

    /// The same of the bits of sums above those.
    pub fn highs(&self, column: usize, first: usize, into: &mut [i64]) -> bool
        ensures all { IsTrue result → AreItems high_in self.now.report column first into.new }
        ensures none { IsFalse result → LacksItem high_in self.now.report column first (length into.old) }
        ensures len { length into.new ≡ length into.old }
    {
        self.read_column::<i64, Highs>(column, first, into)
    }

    /// The text of the cell so many rows after the first.
    fn text_at(&self, column: usize, first: usize, i: usize) -> Option<&str>
        ensures { option_map (λ text. text.now) result ≡ item_at text_in self.now.report column (first + i) }
    {
        let rows = self.rows();
        if rows <= first || rows - first <= i {
            return None;
        }
        match self.cell(first + i, column) {
            Some(Shown::Text(text)) => Some(text),
            _ => None,
        }
    }

    /// The texts of a column, from a row on, one after another, with where each ends, or nothing if there aren't as many;
    /// then the ends are anything.
    pub fn texts(
        &self,
        alloc: Global,
        column: usize,
        first: usize,
        ends: &mut [u64],
    ) -> Result<Option<Text>, NoMemory>
        ensures texts { IfOk result (λ texts. IfSome texts (λ all. AreTexts self.now.report column first all ends.new)) }
        ensures none { IfOk result (λ texts. IfNone texts
            (LacksItem text_in self.now.report column first (length ends.old))) }
        ensures len { length ends.new ≡ length ends.old }
    {
        let mut all = Text::new(alloc);
        for i in 0..ends.len() {
            match self.text_at(column, first, i) {
                Some(text) => all.push_str(text)?,
                None => return Ok(None),
            }
            ends[i] = all.as_str().len() as u64;
        }
        Ok(Some(all))
    }
}
