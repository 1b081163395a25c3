//! Plans of queries that the live constraints needn't cover: where a block lacks a constraint, a table is read whole.
#![tactic(auto)]

mod building;
mod executing;
mod lists;
mod plan;
mod port;
mod preparing;
mod scans;
mod sharing;
mod used;

pub use executing::scan_execute;
pub use plan::ScanPlan;
pub use preparing::scan_prepare;
