// What is reported of a query over drawn tables that isn't covered.
use crate::tables::column_name;
use beas_core::{Name, NoMemory, NotCovered, Refusal};
use std::alloc::Global;

/// The refusal of a query whose block with this number, counted from 0, isn't covered.
pub fn refusal_of_block(alloc: Global, block: usize, why: NotCovered) -> Result<Refusal, NoMemory> {
    let (atom, column) = match why {
        NotCovered::ColumnOpen { atom, column } => {
            (atom, Name::of(alloc, column_name(column.0.min(9) as u8))?)
        }
        NotCovered::AtomUnindexed { atom } => (atom, None),
    };
    Ok(Refusal::NotCovered {
        block: block.min(1000) as u32 + 1,
        atom: u32::from(atom) + 1,
        column,
    })
}
