//! The index of one access constraint over the rows of its table: for each key its group, each tuple with
//! the number of rows that have it.
#![tactic(auto)]

mod bucket;
mod index;
mod lending;
mod start;
mod tally;
mod values;

pub use index::{AccessIndex, joined_columns};
pub use lending::{Lent, lend_in_order, lend_new_in_order};
pub use start::GroupStart;
pub use tally::Tally;
