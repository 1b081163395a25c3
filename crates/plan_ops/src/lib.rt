//! The operators that answer a query: of a block the valuations before its first step, how each step extends them,
//! which of them meet the comparisons, and the output.
//!
//! They read rows through an `AccessPort` and nothing else, and count what they read. What a whole query answers is
//! the matter of the crate above.
#![tactic(auto)]

mod asking;
mod comparing;
mod copying;
mod extending;
mod indexing;
mod joining;
mod keeping;
mod matching;
mod pairs;
mod picked;
mod picking;
mod places;
mod probing;
mod projecting;
mod sets;
mod shared;
mod sieving;
mod stages;
mod starting;
mod tables;
mod valuations;

pub use asking::ask_for_all;
pub use copying::push_copy;
pub use extending::extend;
pub use joining::Join;
pub use keeping::keep;
pub use projecting::project;
pub use sets::{subtract, unite};
pub use shared::Shared;
pub use sieving::{Own, Sieve};
pub use stages::{
    Stage, is_joined_output, joined_output, key_into, leads, output_of, push_joined, stage_of,
};
pub use starting::{start, start_block};
pub use valuations::Valuations;
