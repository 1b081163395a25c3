// What the valuations and reads of a derivation are taken over.
use beas_core::{Access, List, Normal, Row};

/// A block's normal form over tables, with the access constraints.
#[derive(Clone, Copy)]
pub struct BlockOnTables<'a> {
    pub tables: &'a [List<Row>],
    pub normal: &'a Normal,
    pub accesses: &'a [Access],
}
