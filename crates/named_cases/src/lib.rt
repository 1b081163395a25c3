//! Tries blocks by calls, those too that no statement spells, and the reference programs on named cases.
//!
//! - `try_columnless`: drawn queries over drawn rows and constraints lose the columns of their outputs. Such a query
//!   has one row without values where it has any, so its answer says whether it has. It is handed the number of
//!   sessions.
//! - `try_named`: the named cases of a file, in the words of `named_blocks`, are built as they stand there, over stores
//!   that statements fill with their tables, constraints and rows.
//! - `show_reference`: of the same cases it prints what the reference programs give: of each block its classes and
//!   needed columns by atom, whether it is guided, the covered classes, and the steps of its derivation with cost and
//!   size, or why it isn't covered; then of the query, where all blocks are covered, its size, the announced number,
//!   the probes as block, step and key, and the reads; and in any case the rows of the full answer. Blocks and steps
//!   are numbered from 0 on. A line says so where the answers aren't the full answer.
//!
//! Each query of the first two is prepared and executed over a session's store, and its number, its reads and its rows
//! are compared with what the reference programs give, from the normal form on. A query that they find not covered, or
//! whose number passes 2^128 - 1, has to be refused so. Before it is prepared, a query is seen to have the shape that
//! the layers ask of it.
//!
//! It promises nothing but safety. The counter of reads has no value when the program runs: that it rises by the
//! answer's reads is proved of the executor alone.
#![tactic(auto)]

mod blocks;
mod columnless;
mod input;
mod named;
mod outcomes;
mod reference;
mod scripts;
mod shapes;
mod shown;
mod starts;

pub use columnless::try_columnless;
pub use named::try_named;
pub use reference::show_reference;
