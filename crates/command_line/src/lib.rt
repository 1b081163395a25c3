//! The arguments after the program's name: which run they ask for, and the line that says how they are to be written.
#![tactic(auto)]

mod arguments;
mod command;
mod numbers;
mod reading;

pub use arguments::{Args, Usage, usage_line};
pub use reading::args;
