//! Derivations of blocks, the steps by which their rows are fetched, and what is announced of a query by them.
#![tactic(auto)]

mod blocks;
mod candidates;
mod choices;
mod derivations;
mod fronts;
mod own;
mod preparation;
mod pruning;
mod sets;
mod uncovered;

pub use derivations::derive;
pub use preparation::{prepare, prepare_over};
pub use uncovered::lacking;
