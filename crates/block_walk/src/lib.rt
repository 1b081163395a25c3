//! The walk of one block through its derivation, depth first, one probe a turn.
#![tactic(auto)]

mod fetching;
mod fields;
mod group;
mod known;
mod laws;
mod ordered;
mod stack;
mod walking;

pub use fields::walk_fields;
pub use laws::law_walk;
pub use walking::{Walk, answer, begin, turn};
