// What a catalogue knows of a table.
use beas_core::{Column, List, Name};

/// A table's name and columns.
#[derive(Debug, Drop)]
pub struct TableSchema {
    pub name: Name,
    pub columns: List<Column>,
}
