//! beas inside another program: a database that is asked statement by statement, over files that the program hands over.
//! Each statement leaves a report, which is there to be read until the next one.
#![tactic(auto)]

mod columns;
mod engine;
mod handed_files;
mod laws;
mod pieces;
mod told;

pub use engine::Engine;
pub use laws::law_says_as_run;
pub use pieces::Why;
pub use told::Shown;
