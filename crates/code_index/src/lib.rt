//! Values as numbers, and the index of one access constraint over rows of these, for each width of its key.
#![tactic(auto)]

mod asked;
mod codes;
mod form;
mod group;
mod hints;
mod interner;
mod key;
mod keyed;
mod own_codes;
mod spelling;
mod tuples;

pub use interner::Interner;
pub use key::known_codes;
pub use keyed::{FixedIndex, LongIndex};
pub use spelling::{interned_row, known_row};
