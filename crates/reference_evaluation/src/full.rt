// The full answer, by all ways to choose one row for each atom.
ghost use Rattle.std.specs.Prelude.{◌≡◌, ◌++◌, ◌∷◌, [], pos, map, filter, flat_map, IfOk, OnOk, slice_index_or};
ghost use Rattle.std.specs.List.{list_all, list_any};
ghost use Rattle.beas_core.specs.Groups.{same_row};
ghost use Rattle.beas_core.specs.Order.{value_cmp};
ghost use Rattle.beas_core.specs.Full.{choices, choice_value, comparison_holds, meets, same_value, sign_holds, set_union, set_difference, full_of, full_of_block};
ghost use Rattle.reference_evaluation.specs.Tables.{rows_in};

use crate::rows::{copy_of_value, distinct_rows, rows_of, value_or};
use beas_core::{
    Atom, Block, Comparison, Duplicate, List, NoMemory, Operand, Place, Query, QueryNode, Row,
    Sign, Value, compare, compare_rows,
};
use reference_coverage::{append, with_first};
use std::alloc::Global;
use std::cmp::Ordering;

/// Whether a sign holds of two values.
pub fn sign_holds(sign: Sign, left: &Value, right: &Value) -> bool
    ensures { result ≡ sign_holds sign (value_cmp left.now right.now) }
{
    let order = compare(left, right);
    match sign {
        Sign::Equal => order == Ordering::Equal,
        Sign::Differs => order != Ordering::Equal,
        Sign::Less => order == Ordering::Less,
        Sign::AtMost => order != Ordering::Greater,
        Sign::More => order == Ordering::Greater,
        Sign::AtLeast => order != Ordering::Less,
    }
}

/// A choice with one more row before it.
fn with_row(alloc: Global, row: &Row, others: &List<Row>) -> Result<List<Row>, NoMemory>
    ensures { IfOk result (λ choice. choice ≡ row.now ∷ others.now) }
{
    with_first(alloc, row.copy(alloc)?, others.copy(alloc)?)
}

fn add_choices(
    alloc: Global,
    row: &Row,
    others: &[List<Row>],
    all: &mut List<List<Row>>,
) -> Result<(), NoMemory>
    ensures { OnOk result (all.new ≡ all.old ++ map (λ other. row.now ∷ other) others.now) }
{
    for other in others {
        all.push(with_row(alloc, row, other)?)?;
    }
    Ok(())
}

fn choose(alloc: Global, rows: &[Row], others: &[List<Row>]) -> Result<List<List<Row>>, NoMemory>
    ensures { IfOk result (λ all. all ≡ flat_map (λ row. map (λ other. row ∷ other) others.now) rows.now) }
{
    let mut all = List::new(alloc);
    for row in rows {
        add_choices(alloc, row, others, &mut all)?;
    }
    Ok(all)
}

/// All ways to choose one row for each atom.
pub fn choices(
    alloc: Global,
    tables: &[List<Row>],
    atoms: &[Atom],
) -> Result<List<List<Row>>, NoMemory>
    ensures { IfOk result (λ all. all ≡ choices (rows_in tables.now) atoms.now) }
{
    match atoms {
        [] => {
            let mut all = List::new(alloc);
            all.push(List::new(alloc))?;
            Ok(all)
        }
        [first, rest @ ..] => {
            let others = choices(alloc, tables, rest)?;
            choose(alloc, rows_of(tables, first.table), others.as_slice())
        }
    }
}

fn choice_value<'a>(choice: &'a [Row], place: Place, zero: &'a Value) -> &'a Value
    requires { zero.now ≡ Value.Int (pos 0) }
    ensures { result.now ≡ choice_value choice.now place }
{
    match choice.get(place.atom as usize) {
        Some(row) => value_or(row.as_slice(), place.column, zero),
        None => zero,
    }
}

fn equalities_hold(equalities: &[(Place, Place)], choice: &[Row], zero: &Value) -> bool
    requires { zero.now ≡ Value.Int (pos 0) }
    ensures { result ≡ list_all (λ e. same_value (choice_value choice.now e.0) (choice_value choice.now e.1))
        equalities.now }
{
    equalities.iter().all(|equality| {
        let left = choice_value(choice, equality.0, zero);
        let right = choice_value(choice, equality.1, zero);
        left == right
    })
}

fn constants_hold(constants: &[(Place, Value)], choice: &[Row], zero: &Value) -> bool
    requires { zero.now ≡ Value.Int (pos 0) }
    ensures { result ≡ list_all (λ c. same_value (choice_value choice.now c.0) c.1) constants.now }
{
    constants.iter().all(|constant| *choice_value(choice, constant.0, zero) == constant.1)
}

fn comparison_holds(comparison: &Comparison, choice: &[Row], zero: &Value) -> bool
    requires { zero.now ≡ Value.Int (pos 0) }
    ensures { result ≡ comparison_holds (choice_value choice.now) comparison.now }
{
    let left = choice_value(choice, comparison.left, zero);
    match &comparison.right {
        Operand::At(place) => sign_holds(comparison.sign, left, choice_value(choice, *place, zero)),
        Operand::Fixed(value) => sign_holds(comparison.sign, left, value),
    }
}

fn comparisons_hold(comparisons: &[Comparison], choice: &[Row], zero: &Value) -> bool
    requires { zero.now ≡ Value.Int (pos 0) }
    ensures { result ≡ list_all (comparison_holds (choice_value choice.now)) comparisons.now }
{
    comparisons
        .iter()
        .all(|comparison| comparison_holds(comparison, choice, zero))
}

fn meets(block: &Block, choice: &[Row]) -> bool
    ensures { result ≡ meets block.now choice.now }
{
    let zero = Value::Int(0);
    let equal = equalities_hold(block.equalities.as_slice(), choice, &zero);
    let fixed = constants_hold(block.constants.as_slice(), choice, &zero);
    let compared = comparisons_hold(block.comparisons.as_slice(), choice, &zero);
    // All are worked out before they are joined: `&&` would part the proof in cases.
    equal & fixed & compared
}

fn copy_at(alloc: Global, choice: &[Row], place: Place) -> Result<Value, NoMemory>
    ensures { IfOk result (λ value. value ≡ choice_value choice.now place) }
{
    match choice.get(place.atom as usize) {
        Some(row) => copy_of_value(alloc, row.as_slice(), place.column),
        None => Ok(Value::Int(0)),
    }
}

fn project_choice(alloc: Global, choice: &[Row], output: &[Place]) -> Result<Row, NoMemory>
    ensures { IfOk result (λ row. row ≡ map (choice_value choice.now) output.now) }
{
    let mut row = List::new(alloc);
    for place in output {
        row.push(copy_at(alloc, choice, *place)?)?;
    }
    Ok(row)
}

/// The outputs of the choices that meet all conditions.
fn outputs(alloc: Global, block: &Block, all: &[List<Row>]) -> Result<List<Row>, NoMemory>
    ensures { IfOk result (λ found. found ≡ map (λ choice. map (choice_value choice) block.now.output)
        (filter (meets block.now) all.now)) }
{
    let mut found = List::new(alloc);
    for choice in all {
        if meets(block, choice.as_slice()) {
            found.push(project_choice(alloc, choice.as_slice(), block.output.as_slice())?)?;
        }
    }
    Ok(found)
}

/// The full answer of a block over tables.
#[tactic(auto, unfolding(beas_core::specs::Full::full_of_block))]
pub fn full_of_block(
    alloc: Global,
    tables: &[List<Row>],
    block: &Block,
) -> Result<List<Row>, NoMemory>
    ensures { IfOk result (λ answer. answer ≡ full_of_block (rows_in tables.now) block.now) }
{
    let all = choices(alloc, tables, block.atoms.as_slice())?;
    let found = outputs(alloc, block, all.as_slice())?;
    Ok(distinct_rows(found))
}

pub fn has_row(rows: &[Row], row: &Row) -> bool
    ensures { result ≡ list_any (same_row row.now) rows.now }
{
    rows.iter().any(|other| compare_rows(row.as_slice(), other.as_slice()) == Ordering::Equal)
}

pub fn set_union(left: List<Row>, right: List<Row>) -> Result<List<Row>, NoMemory>
    ensures { IfOk result (λ rows. rows ≡ set_union left right) }
{
    Ok(distinct_rows(append(left, right)?))
}

pub fn set_difference(alloc: Global, left: &[Row], right: &[Row]) -> Result<List<Row>, NoMemory>
    ensures { IfOk result (λ rows. rows ≡ set_difference left.now right.now) }
{
    let mut rows = List::new(alloc);
    for row in left {
        if !has_row(right, row) {
            rows.push(row.copy(alloc)?)?;
        }
    }
    Ok(rows)
}

/// The full answer of a query over tables.
pub fn full_of(alloc: Global, tables: &[List<Row>], query: &Query) -> Result<List<Row>, NoMemory>
    ensures { IfOk result (λ answer. answer ≡ full_of (rows_in tables.now) query.now) }
{
    match &query.node {
        QueryNode::Block(block) => full_of_block(alloc, tables, block),
        QueryNode::Union(left, right) => set_union(
            full_of(alloc, tables, left)?,
            full_of(alloc, tables, right)?,
        ),
        QueryNode::Except(left, right) => {
            let others = full_of(alloc, tables, right)?;
            let rows = full_of(alloc, tables, left)?;
            set_difference(alloc, rows.as_slice(), others.as_slice())
        }
    }
}
