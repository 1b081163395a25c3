//! The tokens of a statement that are still to be read: a `Reader` goes after one token or a few at a call, and says what stood there.
//!
//! Contracts see a reader as those tokens, without their places. They speak in `specs/Reading`. Where what is wanted isn't next, the
//! call gives `ReadError::Syntax`; it isn't promised where the reader stands after that, nor that a call says `NoMemory` only where
//! memory ran out.
#![tactic(auto)]

mod reader;
mod texts;

pub use reader::{ReadError, Reader};
