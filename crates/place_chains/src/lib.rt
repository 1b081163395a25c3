//! The places that have a hash, and the tuples of a group that may have some values.
//!
//! `HashChains` keeps the hashes of places 0, 1, 2 and so on, and finds the places of one again, from the last one on. It
//! promises nothing of how well hashes are spread. `TupleOrder` has tuples in the order of their values. `Fitting` goes through
//! tuples from the first one on: through all, or by such an order through those alone that have some values.
#![tactic(auto)]

mod chains;
mod fitting;
mod hashing;
mod links;
mod ordering;

pub use chains::HashChains;
pub use fitting::Fitting;
pub use hashing::hash_of;
pub use ordering::{TupleOrder, value_or};
