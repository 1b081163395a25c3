//! The classes that a block's constraints cover, and why a set of classes doesn't cover it.
#![tactic(auto)]

mod classes;
mod closure;
mod columns;
mod keys;
mod reasons;
mod uses;

pub use classes::{constant_classes, has_class, holds_columns};
pub use closure::{close, close_from};
pub use columns::are_same_columns;
pub use keys::Keys;
pub use reasons::{holds_needed, open_place, reason, serves, why_not};
pub use uses::{UseAt, uses_of, uses_within};
