//! The store whose indexes keep codes of values: tables with their rows, each constraint with its index, and updates that
//! keep every constraint. A table can be frozen: a copy that stands by itself, with its constraints and their indexes.
#![tactic(auto)]

mod any;
mod bulk;
mod copying;
mod freezing;
mod frozen;
mod frozen_port;
mod guarded;
mod indexes;
mod laws;
mod port;
mod probing;
mod rows;

pub use code_index::{FixedIndex, Interner};
pub use frozen::Frozen;
pub use guarded::WordGuarded;
pub use laws::law_interned;
