//! What queries mean, by plain slow programs over small lists whose contracts are the definitions: the valuations of a
//! derivation, the full answer of a query, and its answers, its probes and its reads by the plans of its blocks.
//!
//! `planning`, `running` and `guides` put the reference programs together, and test what these ask of a query: how a
//! whole query is planned over the constraints that there are, what it answers and reads by plans, and what its guided
//! blocks find. They promise nothing but safety.
//!
//! They serve to compare. The layers that the program is built from do the same fast.
#![tactic(auto)]

mod answers;
mod bindings;
mod block_on_tables;
mod full;
mod guides;
mod keys;
mod planning;
mod plans_on_tables;
mod probes;
mod reads;
mod rows;
mod running;

pub use answers::query_answers;
pub use full::full_of;
pub use guides::GuidedBlocks;
pub use planning::{Planned, QueryPlans, plan_query};
pub use plans_on_tables::PlansOnTables;
pub use probes::{BlockProbe, query_probes};
pub use reads::query_reads;
pub use running::{Run, run_of};
