// A query with its scans.
use beas_core::{Access, List, Prepared};

/// A query with all that is announced of it, over the live constraints and scans. `scans` are those that a step uses.
/// `bound` is the greatest number of reads, with the rows of the tables that are scanned.
#[derive(Drop)]
pub struct ScanPlan {
    pub prepared: Prepared,
    pub scans: List<Access>,
    pub bound: u128,
}
