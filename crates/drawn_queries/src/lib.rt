//! Compares what sessions and layers give of drawn queries with what plain programs give.
//!
//! - `try_queries`: drawn queries over drawn rows and constraints are announced, answered and refused by sessions as by
//!   the plain programs of `reference_coverage`, `reference_evaluation` and `full_meaning`. Those of one block are also
//!   handed to `coverage_check`.
//! - `try_plans`: the executor is tried by calls, where a query's derivations needn't be the canonical ones. A drawn
//!   query is prepared, and compared with what `reference_coverage` plans: which blocks are guided, the derivations,
//!   the number, or the first block that isn't covered. Then up to three drawn constraints are made, and only then it
//!   is executed. Its plans are sound over the longer list of constraints still, but where a later constraint has a
//!   lower bound or serves more, others are canonical there. The rows, the reads and the number are compared with what
//!   `reference_evaluation` and `reference_coverage` give for these plans over that list. About half of all queries get
//!   no constraint more, so that canonical plans are tried too.
//!
//! Both are handed the number of sessions, of which each has a few queries, and print how many came out how. It
//! promises nothing but safety. The counter of reads has no value when the program runs: that it rises by an answer's
//! reads is proved of the executor alone.
#![tactic(auto)]

mod additions;
mod announced;
mod answers;
mod constraints;
mod coverage;
mod outcomes;
mod plans;
mod queries;
mod tallies;

pub use plans::try_plans;
pub use queries::try_queries;
