//! Queries with their tables and constraints, read from lines that a person writes.
//!
//! A case is these lines. Words stand apart by one space, and a line that begins with `#` is a comment.
//!
//!     case NAME                           begins a case
//!     table NAME COLUMN ..                a table with its columns
//!     row TABLE VALUE ..                  a row; a value is a number, or a text after a quote: 'nyc
//!     access ID NAME TABLE LIMIT key COLUMN .. fetch COLUMN ..
//!     block                               begins a block
//!     atom NAME TABLE                     an atom of the block
//!     where NAME.COLUMN SIGN OPERAND      a condition; an operand is NAME.COLUMN or a value
//!     output NAME.COLUMN ..               the output of the block
//!     union, except                       joins the last two queries
//!
//! It promises nothing but safety: what a case is can be seen by what is printed of it.
#![tactic(auto)]

mod builder;
mod named_case;
mod words;
mod wrong;

pub use builder::cases_of;
pub use named_case::{NamedBlock, NamedCase, NamedTable, Part};
pub use wrong::Wrong;
