// Valuations of the classes that are bound after some steps.

use beas_core::{List, Row};

/// The classes that are bound, ascending, and rows with a value for each of them: distinct, in value order.
#[derive(Drop)]
pub struct Valuations {
    pub classes: List<u16>,
    pub rows: List<Row>,
}
