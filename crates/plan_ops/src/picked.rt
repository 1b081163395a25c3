// The columns that a step picks: those of its tuples, its key, and the output after it.
ghost use Rattle.std.specs.Prelude.{◌≡◌, length, map, IfOk};
ghost use Rattle.beas_core.specs.Coverage.{class_at as class_of_column, place_class};
ghost use Rattle.beas_core.specs.Valuations.{classes_in};
ghost use Rattle.plan_ops.specs.Over.{set_of};
ghost use Rattle.plan_ops.specs.Places.{column_of};

use crate::places::{push_columns_at, push_columns_in};
use beas_core::{ColumnId, NoMemory, Normal};
use std::marker::Model;

/// The columns of a step's tuples, then where the step's key stands in valuations before it, then where the block's output stands
/// in valuations after it, in one piece of memory.
#[derive(Drop)]
pub struct Picked {
    columns: Vec<ColumnId>,
    /// How many are a tuple's.
    width: usize,
    /// Where the key's end, which stand after the tuple's.
    key_end: usize,
}

impl Model for Picked {
    ghost use Rattle.std.specs.Prelude.{List, ◌≤◌, ◌-◌, take, drop, vec_len};
    ghost use Rattle.beas_core.specs.declared.schema.ColumnId.{ColumnId};

    ghost Value = { List ColumnId × (List ColumnId × List ColumnId) };

    ghost view = { λ s. (
      take s.width s.columns.items,
      (take (s.key_end - s.width) (drop s.width s.columns.items), drop s.key_end s.columns.items),
    ) };

    ghost invariant = { λ s. (s.width ≤ s.key_end) × (s.key_end ≤ vec_len s.columns) };
}

impl Picked {
    /// A tuple's columns, then where the classes of an atom's key columns stand in `before`, then where those of the block's output
    /// stand in `after`.
    pub fn of(
        tuple: Vec<ColumnId>,
        block: &Normal,
        before: &[u16],
        after: &[u16],
        atom: u16,
        key: &[ColumnId],
    ) -> Result<Picked, NoMemory>
        requires before { before.now ≡ classes_in (set_of block.now before.now) }
        requires after { after.now ≡ classes_in (set_of block.now after.now) }
        ensures tuple { IfOk result (λ picked. picked.0 ≡ tuple.items) }
        ensures key { IfOk result (λ picked. picked.1.0
            ≡ map (λ c. column_of before.now (class_of_column block.now atom c)) key.now) }
        ensures output { IfOk result (λ picked. picked.1.1
            ≡ map (λ p. column_of after.now (place_class block.now p)) block.now.output) }
    {
        let output = block.output.as_slice();
        let width = tuple.len();
        let mut columns = tuple;
        columns.reserve(key.len().saturating_add(output.len()))?;
        push_columns_in(block, before, atom, key, &mut columns);
        let key_end = columns.len();
        push_columns_at(block, after, output, &mut columns);
        Ok(Picked {
            columns,
            width,
            key_end,
        })
    }

    /// How many columns a tuple has.
    pub fn width(&self) -> usize
        ensures { result ≡ length self.now.0 }
    {
        self.width
    }

    pub fn tuple(&self) -> &[ColumnId]
        ensures { result.now ≡ self.now.0 }
    {
        &self.columns[..self.width]
    }

    pub fn key(&self) -> &[ColumnId]
        ensures { result.now ≡ self.now.1.0 }
    {
        &self.columns[self.width..self.key_end]
    }

    pub fn output(&self) -> &[ColumnId]
        ensures { result.now ≡ self.now.1.1 }
    {
        &self.columns[self.key_end..]
    }
}
