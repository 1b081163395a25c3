// What a probe finds in an index over codes, as the values of these codes.
ghost use Rattle.std.specs.Prelude.{◌≡◌, ◌+◌, ◌<◌, [], List, length, max, slice_index_or, IsTrue};
ghost use Rattle.beas_core.specs.Types.{Row};
ghost use Rattle.beas_core.specs.Groups.{group_of, member_columns, has_column, value_in};
ghost use Rattle.access_index.specs.Index.{IsIndexOf, members_at, stands_at};
ghost use Rattle.word_index.specs.Widths.{index_in};
ghost use Rattle.word_index.specs.Kept.{meaning, IsKept};

use crate::any::AnyIndex;
use crate::rows::find_group;
use access_index::GroupStart;
use beas_core::{ColumnId, Hits, Steps, Value};
use code_index::Interner;
use std::sync::ledger::Ledger;

/// The group of a key, counted: the greater of 1 and the number of its tuples. It takes no memory.
pub fn probe_in<L: Ledger>(
    codes: &Interner,
    index: &AnyIndex,
    key: &[Value],
    steps: &mut Steps<L>,
) -> Hits
    requires kept { IsKept codes.now index.now }
    requires width { length key.now ≡ length (index_in index.now).access.key }
    ensures access { result.access ≡ (index_in index.now).access.id }
    ensures members { (rows : List Row) → IsIndexOf (meaning codes.now index.now) rows
        → members_at (meaning codes.now index.now) result ≡ group_of rows (index_in index.now).access key.now }
    ensures len { result.len ≡ length (members_at (meaning codes.now index.now) result) }
    ensures stands { stands_at (meaning codes.now index.now) result }
    ensures cost { steps.new ≡ steps.old + max 1 result.len }
{
    let id = index.access().id;
    match find_group(codes, index, key) {
        Some((group, len)) => {
            let start = GroupStart {
                bucket: group as u32,
                from: 0,
            };
            Hits::counted(id, start.pack(), len, steps)
        }
        None => Hits::counted(id, 0, 0, steps),
    }
}

/// A column of a tuple that a probe found and counted, while the index is as it was. It takes no memory.
pub fn value_in_hits<'a>(
    codes: &'a Interner,
    index: &AnyIndex,
    hits: &Hits,
    i: u32,
    column: ColumnId,
) -> &'a Value
    requires kept { IsKept codes.now index.now }
    requires stands { stands_at (meaning codes.now index.now) hits.now }
    requires member { i < hits.now.len }
    requires column { IsTrue (has_column (member_columns (index_in index.now).access) column) }
    ensures { result.now ≡ value_in (member_columns (index_in index.now).access)
        (slice_index_or (members_at (meaning codes.now index.now) hits.now) i []) column }
{
    let start = GroupStart::unpack(hits.place());
    codes.value(index.word(u64::from(start.bucket), start.from + i, column))
}
