//! Names become places: queries, the rows of an INSERT and the conditions of a DELETE are bound to a catalogue.
//!
//! The contracts speak in `specs/Binding` of `name_resolution`: why something is refused, and what it is bound to if it
//! isn't. A query of one block of at most four atoms is bound here in one walk if nothing in it is to be refused. Any
//! other is bound by `name_resolution`, which finds out what is to be refused.
//!
//! Scripts and sessions with lowered limits test it (`cases/data`), and so do drawn queries
//! (`drawn_queries`). It doesn't promise that a query is covered, nor that the rows of an INSERT fit their table, since
//! it looks at their literals alone, nor that it says `NoMemory` only where memory ran out.
#![tactic(auto)]

mod at_once;
mod binding;
mod rows;

pub use binding::bind;
pub use name_resolution::bind_delete;
pub use rows::bind_rows;
