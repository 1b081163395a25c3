//! The store: tables with their rows, each constraint with its index; tests of rows, and updates that keep every constraint.
#![tactic(auto)]

mod breaking;
mod checking;
pub mod deleting;
mod filtering;
mod guarded;
mod indexes;
mod indexing;
pub mod inserting;
pub mod making;
pub mod port;

pub use guarded::Guarded;
pub use indexes::Indexes;
