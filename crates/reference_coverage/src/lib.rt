//! What the constraints of a query cover, by plain slow programs whose contracts are the definitions: the covered set
//! of a block, coverage and its reason, the canonical derivation, which blocks start from the answers of their guide,
//! and the announced number.
//!
//! They serve to compare. The layers that the program is built from do the same fast.
#![tactic(auto)]

mod access_uses;
mod coverage;
mod derivations;
mod lists;
mod numbers;
mod pruning;
mod sizes;
mod tasks;

pub use access_uses::access_with;
pub use coverage::covered_set;
pub use derivations::{bound_after, columns_of, greedy_steps};
pub use lists::{append, with_first};
pub use numbers::announced_number;
pub use sizes::{
    BlockPlans, is_guided, number_after, query_bound, query_size, size_of, start_size, steps_of,
};
pub use tasks::{
    Task, Uncovered, block_tasks, blocks_have_few_places, first_uncovered, guided_flags,
    is_guided_task, plans_of, task_reason, task_start,
};
