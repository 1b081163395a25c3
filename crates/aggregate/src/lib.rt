//! Answers in groups: the rows of each key, which are the first columns, give one row of cells. It takes rows that are distinct
//! and in order, as answers are, and reads nothing else. That a sum is of integers, and that a column that is shown plain has
//! one value for each key, is the caller's to see.
#![tactic(auto)]

mod cell;
mod columns;
mod grouping;

pub use cell::{Cell, Fold};
pub use grouping::fold_rows;
