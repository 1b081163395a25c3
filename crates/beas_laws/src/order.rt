// Laws on the value order, on sets of rows and on groups.
ghost use Rattle.std.specs.Prelude.{◌≡◌, ◌≤◌, ◌↔◌, List, Contains};
ghost use Rattle.std.specs.Cmp.{IsTotalOrder};
ghost use Rattle.beas_core.specs.Types.{Row};
ghost use Rattle.beas_core.specs.Order.{value_cmp, row_cmp, TellsApart};
ghost use Rattle.beas_core.specs.Sets.{distinct, IsInOrder};
ghost use Rattle.beas_core.specs.Groups.{Holds, greatest};

use beas_core::Access;

/// The orders of values and of rows are total, and values or rows that compare equal are equal.
pub fn law_order()
    ensures values { IsTotalOrder value_cmp }
    ensures rows { IsTotalOrder row_cmp }
    ensures values_apart { TellsApart value_cmp }
    ensures rows_apart { TellsApart row_cmp }
{}

/// `distinct` is strictly ascending and has the same members, and two strictly ascending lists with the same members
/// are equal.
pub fn law_set()
    ensures ascending { (rows : List Row) → IsInOrder row_cmp (distinct row_cmp rows) }
    ensures members { (rows : List Row) (row : Row) → Contains (distinct row_cmp rows) row ↔ Contains rows row }
    ensures same { (left right : List Row) → IsInOrder row_cmp left → IsInOrder row_cmp right
        → ((row : Row) → Contains left row ↔ Contains right row) → left ≡ right }
{}

/// A constraint holds over rows exactly where its greatest group has at most as many members as its bound.
pub fn law_greatest(access: &Access)
    ensures { (rows : List Row) → Holds rows access.now
        ↔ (greatest rows access.now.key access.now.fetched ≤ access.now.bound) }
{}
