// What rows of groups are made of.
use beas_core::Value;

/// What stands in a row of groups.
#[derive(Debug, Drop)]
pub enum Cell {
    Plain(Value),
    Count(u64),
    Sum(i128),
}

/// What is made of a column of a group, over its distinct values in order.
#[derive(Clone, Copy, Debug, PartialEq, Eq)]
pub enum Fold {
    /// The value of a column that has one in each group: the first.
    Plain,
    /// How many there are.
    Count,
    /// The sum, in which a text counts nothing. No sum of fewer than 2^64 integers leaves `i128`.
    Sum,
    /// The first, as a plain cell.
    Least,
    /// The last, as a plain cell.
    Greatest,
}
