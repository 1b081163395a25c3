//! What names stand for: the names of queries and of the conditions of a DELETE are looked up in a catalogue.
//!
//! The contracts speak in `specs/Binding`: why something is refused, and what it is bound to where it isn't. This
//! stands on `Meanings`, what a name stands for, `LookedUp`, blocks with their names looked up, and `Refusing`, the
//! places of each kind of refusal in their order.
//!
//! A query is bound here kind by kind of refusal. The crate `binder` first tries to bind it in one walk.
#![tactic(auto)]

mod binding;
mod building;
mod deleting;
mod found;
mod kinds;
mod literals;
mod looking_up;
mod meaning;
mod names;
mod refusing;
mod scope;

pub use binding::bound_by_kinds;
pub use building::{add_condition, all_places, place_of};
pub use deleting::bind_delete;
pub use found::NamedAtom;
pub use literals::literal_value;
pub use meaning::{BoundColumn, Condition, LookedUp, Meaning, Part};
pub use names::{FEW, Names, atoms_in_order};
pub use refusing::{condition_has_flaw, is_mixed, refuse_text};
