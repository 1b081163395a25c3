//! Laws over the definitions. Each is the contract of a function that works nothing out.
//!
//! - `answers`, `bounds`, `classes`, `coverage`, `order`: what plans, numbers and answers are;
//! - `printing`: what a printed statement is read as;
//! - `groups`, `scans`: what grouped statements and SCAN OK mean;
//! - `files`: a report names a file as one that can't be read exactly where the load of this file failed;
//! - `sessions`: what a session is made of;
//! - `steady`: a run over files and sinks that never fail, which isn't a law but a program.
#![tactic(auto)]

mod answers;
mod bounds;
mod classes;
mod coverage;
mod files;
mod groups;
mod order;
mod printing;
mod scans;
mod sessions;
mod steady;

pub use answers::{law_answer, law_guided, law_step};
pub use bounds::{law_block_bound, law_bound, law_more_answers};
pub use classes::law_classes;
pub use coverage::{
    law_covered_set, law_derivation_exists, law_derivation_sound, law_first_uncovered,
    law_more_accesses, law_more_fits, law_pruned, law_reason, law_still_fits,
};
pub use files::{law_all_readable, law_unreadable_script, law_unreadable_statement};
pub use groups::law_listed_groups;
pub use order::{law_greatest, law_order, law_set};
pub use printing::law_printed;
pub use scans::{law_covered_alone, law_sizes_alone};
pub use sessions::session_fields;
pub use steady::run_steady;
