// What the answers and reads of a whole query are taken over.
use beas_core::{List, Row};
use reference_coverage::BlockPlans;

/// The plans of a query's blocks over tables.
#[derive(Clone, Copy)]
pub struct PlansOnTables<'a> {
    pub tables: &'a [List<Row>],
    pub plans: BlockPlans<'a>,
}
