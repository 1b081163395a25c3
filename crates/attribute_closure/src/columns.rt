// Lists of columns, compared one by one.
ghost use Rattle.std.specs.Prelude.{◌≡◌, IsTrue};

use beas_core::ColumnId;

/// Whether two lists have the same columns in the same order.
pub fn are_same_columns(one: &[ColumnId], other: &[ColumnId]) -> bool
    ensures { IsTrue result → one.now ≡ other.now }
{
    if one.len() != other.len() {
        return false;
    }
    for i in 0..one.len() {
        if one[i].0 != other[i].0 {
            return false;
        }
    }
    true
}
