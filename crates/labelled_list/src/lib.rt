//! Distinct tuples of codes in an order that only the writer knows, each found by its codes alone.
#![tactic(auto)]

mod coded;
mod codes;
mod labelled;
mod labels;
mod places;
mod slot;
mod stretch;

pub use coded::Coded;
pub use codes::TupleCodes;
pub use labelled::LabelledList;
