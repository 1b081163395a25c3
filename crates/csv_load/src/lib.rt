//! The rows of a CSV file for a table.
#![tactic(auto)]

mod fields;
mod header;
mod records;
mod rows;

pub use rows::rows_of;
