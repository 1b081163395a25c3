//! A desk at which sessions take turns at one database. Before a statement changes a table, the table is kept as it is for
//! each open query that names it, so that the query goes on seeing what it saw where it was opened.
//!
//! It isn't promised that what is kept shares memory with what came after it, nor that a session is ever given a turn: who
//! calls the desk picks the events.
#![tactic(auto)]

mod desk;
mod freezing;
mod going;
mod open;
mod opening;
mod port;
mod pricing;
mod saying;
mod store;
mod turns;

pub use desk::{Desk, desk_fields};
pub use piece_reader::Event;
