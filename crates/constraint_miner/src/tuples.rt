// Tuples put in order.
ghost use Rattle.std.specs.Prelude.{◌≡◌};
ghost use Rattle.std.specs.List.Sorted.{IsSorted, IsPermutation};
ghost use Rattle.constraint_miner.specs.Runs.{tuple_cmp};

use crate::cells::{Tuple, compare_in};
use beas_core::ColumnId;
use std::cmp::Ordering;

fn compare_tuples<T: Tuple>(key: &[ColumnId], fetched: &[ColumnId], a: &T, b: &T) -> Ordering
    ensures { result ≡ tuple_cmp key.now fetched.now (T.values a.now) (T.values b.now) }
{
    let order = compare_in(key, a, b);
    if order == Ordering::Equal {
        compare_in(fetched, a, b)
    } else {
        order
    }
}

/// Puts tuples in order, by the key columns and then by the fetched ones. It takes no memory.
pub fn sort_tuples<T: Tuple>(tuples: &mut [T], key: &[ColumnId], fetched: &[ColumnId])
    ensures same { IsPermutation tuples.old tuples.new }
    ensures sorted { IsSorted (λ a b. tuple_cmp key.now fetched.now (T.values a) (T.values b)) tuples.new }
{
    tuples.sort_unstable_by(|a, b| compare_tuples(key, fetched, a, b));
}
