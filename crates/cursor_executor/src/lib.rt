//! A prepared query that is answered turn by turn, with one probe a turn, over any port that agrees with what it has
//! fetched.
//!
//! Its answer and its reads are those of `plan_executor::execute`. No clause says in which order the probes of a block
//! are made.
#![tactic(auto)]

mod courses;
mod cursors;
mod operations;

pub use cursors::{Cursor, Turn, cursor_fields};
