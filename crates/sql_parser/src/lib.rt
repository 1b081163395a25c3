//! The parser of statements: from the tokens of a piece to its tree.
//!
//! The contract of `parse` speaks in `specs/Outcome`, what tokens are read as: the statement that they spell by the
//! grammar, which is `Grammar` among the specs of `sql_text`, or why they spell none. The parts of the parser speak in
//! `specs/Reading`, which reads from left to right.
//!
//! Spellings with their canonical texts or refusals test it (`cases/data/spellings`), and so do scripts
//! (`cases/data/scripts`). A refusal doesn't say which token is at fault. It isn't promised that a name stands for
//! something or that a number is in range, which `binder` and `catalogue` see to, nor that a call says `NoMemory` only
//! where memory ran out.
#![tactic(auto)]

mod blocks;
mod conditions;
mod groups;
mod laws;
mod nesting;
mod numbers;
mod parts;
mod queries;
mod statements;
mod whole;

pub use laws::{law_one_reading, law_one_statement};
pub use whole::parse;
