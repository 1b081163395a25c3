//! The greatest groups of a table: which access constraints hold over its rows.
#![tactic(auto)]

mod cells;
mod groups;
mod pairs;
mod tuples;

pub use groups::greatest_group;
pub use pairs::{Pair, pairs_within};
