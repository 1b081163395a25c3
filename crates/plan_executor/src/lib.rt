//! The full answer of a prepared query, over any index of constraints.
#![tactic(auto)]

mod answering;
mod executing;
mod trees;

pub use executing::execute;
