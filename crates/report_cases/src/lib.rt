//! Writes a report of each kind and a refusal of each text, as they stand for statement 7, and rows in groups.
//!
//! `write_refusals` and `write_reports` print one after another. `try_groups` prints what comes of the cases of a file.
//! A case is these lines, with words that stand apart by one space; a line that begins with `#` is a remark.
//!
//!     case NAME                 begins a case
//!     keys NUMBER               how many columns in front are the key
//!     folds FOLD ..             plain, count, sum, least or greatest, for each column after the key
//!     row VALUE ..              a row: a value is a number, or a text after a quote: 'nyc
//!
//! Its rows are made a set in order, and it prints one line for each group: each cell, and a text after a quote. What
//! is to come was worked out by hand. Then it makes as many rows as it is told to, a hundred for each key, and sees
//! that each group has what it is to have.
//!
//! It promises nothing but safety.
#![tactic(auto)]

mod cases;
mod groups;
mod many;
mod refusals;
mod reports;
mod sections;
mod shown;
mod writing;

pub use sections::{try_groups, write_refusals, write_reports};
