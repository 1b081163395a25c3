//! The script of the demonstration: tables of persons, cafés and meals, and queries over them, drawn from a seed.
#![tactic(auto)]

mod draws;
mod inserts;
mod queries;
mod script;
mod summary;

pub use script::demo;
pub use summary::{Outcome, Summary};
