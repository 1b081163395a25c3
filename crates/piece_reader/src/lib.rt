//! The reader of pieces: what the tokens of a piece of a script say. A piece is a statement, or begins with `@` and the number of a
//! session, which says a statement or goes on with its open query by STEP.
//!
//! The contract of `read_piece` speaks in `specs/Sayings`; which statement tokens spell is `sql_parser`'s to say. It isn't promised
//! that the session has an open query or has none, which the desk sees to, nor that a call says `NoMemory` only where memory ran out.
#![tactic(auto)]

mod event;
mod laws;
mod reading;

pub use event::Event;
pub use laws::law_one_saying;
pub use reading::{UNNAMED, read_piece};
