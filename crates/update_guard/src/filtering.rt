// Whether a row meets the conditions of a block of one atom.
ghost use Rattle.std.specs.Prelude.{◌≡◌, ◌<◌, ◌∷◌, [], length, All};
ghost use Rattle.std.specs.List.{list_all};
ghost use Rattle.beas_core.specs.Full.{same_value, choice_value, comparison_holds, operand_value, sign_holds, meets};
ghost use Rattle.catalogue.specs.Database.{block_table};
ghost use Rattle.update_guard.specs.Filtering.{PlaceFits, OperandFits, BlockFits};

use beas_core::{Block, Comparison, Operand, Place, Row, TableId, Value, compare, sign_holds};

/// The value of a row at a place of the one atom.
fn value_at<'a>(row: &'a Row, place: &Place) -> &'a Value
    requires { PlaceFits row.now place.now }
    ensures { result.now ≡ choice_value (row.now ∷ []) place.now }
{
    &row.as_slice()[place.column.0 as usize]
}

fn comparison_holds(row: &Row, comparison: &Comparison) -> bool
    requires left { PlaceFits row.now comparison.now.left }
    requires right { OperandFits row.now comparison.now.right }
    ensures { result ≡ comparison_holds (choice_value (row.now ∷ [])) comparison.now }
{
    let left = value_at(row, &comparison.left);
    let right = match &comparison.right {
        Operand::At(place) => value_at(row, place),
        Operand::Fixed(value) => value,
    };
    sign_holds(comparison.sign, compare(left, right))
}

fn meets_equalities(row: &Row, equalities: &[(Place, Place)]) -> bool
    requires left { All (λ e. PlaceFits row.now e.0) equalities.now }
    requires right { All (λ e. PlaceFits row.now e.1) equalities.now }
    ensures { result ≡ list_all (λ e. same_value (choice_value (row.now ∷ []) e.0) (choice_value (row.now ∷ []) e.1))
        equalities.now }
{
    for equality in equalities {
        if value_at(row, &equality.0) != value_at(row, &equality.1) {
            return false;
        }
    }
    true
}

fn meets_constants(row: &Row, constants: &[(Place, Value)]) -> bool
    requires { All (λ c. PlaceFits row.now c.0) constants.now }
    ensures { result ≡ list_all (λ c. same_value (choice_value (row.now ∷ []) c.0) c.1) constants.now }
{
    for constant in constants {
        if *value_at(row, &constant.0) != constant.1 {
            return false;
        }
    }
    true
}

fn meets_comparisons(row: &Row, comparisons: &[Comparison]) -> bool
    requires left { All (λ c. PlaceFits row.now c.left) comparisons.now }
    requires right { All (λ c. OperandFits row.now c.right) comparisons.now }
    ensures { result ≡ list_all (comparison_holds (choice_value (row.now ∷ []))) comparisons.now }
{
    for comparison in comparisons {
        if !comparison_holds(row, comparison) {
            return false;
        }
    }
    true
}

/// Whether a row meets every condition of a block of one atom. It takes no memory.
pub fn meets(block: &Block, row: &Row) -> bool
    requires { BlockFits row.now block.now }
    ensures { result ≡ meets block.now (row.now ∷ []) }
{
    meets_equalities(row, block.equalities.as_slice())
        && meets_constants(row, block.constants.as_slice())
        && meets_comparisons(row, block.comparisons.as_slice())
}

/// The table of a block of one atom.
pub fn table_of(block: &Block) -> TableId
    requires { length block.now.atoms ≡ 1 }
    ensures { result ≡ block_table block.now }
{
    block.atoms.as_slice()[0].table
}
