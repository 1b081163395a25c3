//! Tables and access constraints by name and by number.
//!
//! The contracts speak in three modules of `specs`: `Schema` has what a catalogue holds and what is true of each one,
//! `Refusing` why a call is refused, and `Kept` the ids that are found by a name or by a table. The crates above cite
//! three more: `Database`, what updates make of tables with their rows, `Stored`, a catalogue and the rows of its tables
//! as a database, and `Queries`, when a query is over a catalogue's tables.
//!
//! Scripts and sessions with lowered limits test it (`cases/data`), and so do drawn statements
//! (`scripts/compare-statements`). It keeps no rows, so it doesn't promise that a constraint holds, nor that a call says
//! `NoMemory` only where memory ran out.
#![tactic(auto)]

mod catalogue;
mod columns;
mod ids;
mod names;
mod repeats;
mod tables;

pub use catalogue::{Catalogue, recall_soundness};
pub use ids::position_of_id;
pub use tables::TableSchema;
