// Valuations by choice of rows.
ghost use Rattle.std.specs.Prelude.{◌≡◌, ◌<◌, ◌++◌, ◌∷◌, [], if◌then◌else◌, OnOk, pos, map, filter, flat_map, zip, length, is_some, IfOk};
ghost use Rattle.std.specs.List.{list_all, range_with_len};
ghost use Rattle.beas_core.specs.Groups.{value_at};
ghost use Rattle.beas_core.specs.Full.{same_value, comparison_holds};
ghost use Rattle.beas_core.specs.Coverage.{has, class_at, place_class, start_classes};
ghost use Rattle.beas_core.specs.Derivations.{table_of, bound_after};
ghost use Rattle.beas_core.specs.Valuations.{value_of, agrees, bindings_of, valued_rows, with_row_for, comparison_is_bound, operand_is_bound, comparison_is_met, is_consistent, as_bindings, classes_in, starts, ways, valuations};
ghost use Rattle.reference_evaluation.specs.Tables.{rows_in};

use crate::block_on_tables::BlockOnTables;
use crate::full::sign_holds;
use crate::rows::{copy_of_value, distinct_rows, rows_of};
use beas_core::{
    ColumnId, Comparison, DStep, Duplicate, List, NoMemory, Normal, Operand, Row, TableId, Value,
    class_at, recall_classes,
};
use reference_coverage::{append, bound_after, columns_of, with_first};
use reference_normal_form::{classes_in, has_class, output_classes, start_classes};
use std::alloc::Global;

/// Classes with their values.
pub type Bindings = List<(u16, Value)>;

/// The value of a class by its first binding. `zero` stands where it has none.
fn value_of<'a>(bindings: &'a [(u16, Value)], class: u16, zero: &'a Value) -> &'a Value
    requires { zero.now ≡ Value.Int (pos 0) }
    ensures { result.now ≡ value_of bindings.now class }
{
    match bindings {
        [] => zero,
        [first, rest @ ..] => {
            if first.0 == class {
                &first.1
            } else {
                value_of(rest, class, zero)
            }
        }
    }
}

/// Whether no class has two values.
fn agrees(bindings: &[(u16, Value)], zero: &Value) -> bool
    requires { zero.now ≡ Value.Int (pos 0) }
    ensures { result ≡ agrees bindings.now }
{
    bindings.iter().all(|binding| binding.1 == *value_of(bindings, binding.0, zero))
}

/// What a row of an atom binds.
fn bindings_on(
    alloc: Global,
    normal: &Normal,
    atom: u16,
    columns: &[ColumnId],
    row: &[Value],
) -> Result<Bindings, NoMemory>
    ensures { IfOk result (λ bindings. bindings ≡ map (λ c. (class_at normal.now atom c, value_at row.now c))
        columns.now) }
{
    let mut bindings = List::new(alloc);
    for column in columns {
        let value = copy_of_value(alloc, row, *column)?;
        bindings.push((class_at(normal, atom, *column), value))?;
    }
    Ok(bindings)
}

/// What each row of an atom binds.
fn bindings_on_each(
    alloc: Global,
    normal: &Normal,
    atom: u16,
    columns: &[ColumnId],
    rows: &[Row],
) -> Result<List<Bindings>, NoMemory>
    ensures { IfOk result (λ all. all
        ≡ map (λ row. map (λ c. (class_at normal.now atom c, value_at row c)) columns.now) rows.now) }
{
    let mut all = List::new(alloc);
    for row in rows {
        all.push(bindings_on(alloc, normal, atom, columns, row.as_slice())?)?;
    }
    Ok(all)
}

fn table_of(normal: &Normal, atom: u16) -> TableId
    ensures { result ≡ table_of normal.now atom }
{
    match normal.atoms.as_slice().get(atom as usize) {
        Some(found) => found.table,
        None => TableId(0),
    }
}

/// What each row of a step's table binds.
fn fetches(alloc: Global, block: &BlockOnTables, step: &DStep) -> Result<List<Bindings>, NoMemory>
    ensures { IfOk result (λ fetched. fetched
        ≡ map (bindings_of block.now.normal.now block.now.accesses.now step.now)
        (rows_in block.now.tables.now (table_of block.now.normal.now step.now.atom))) }
{
    let columns = columns_of(alloc, block.accesses, step.access)?;
    let rows = rows_of(block.tables, table_of(block.normal, step.atom));
    bindings_on_each(alloc, block.normal, step.atom, columns.as_slice(), rows)
}

/// A way with what one more row binds.
fn with_row(alloc: Global, way: &Bindings, fetched: &Bindings) -> Result<Bindings, NoMemory>
    ensures { IfOk result (λ more. more ≡ way.now ++ fetched.now) }
{
    append(way.copy(alloc)?, fetched.copy(alloc)?)
}

/// Adds a way with each of the rows.
fn push_ways(
    alloc: Global,
    ways: &mut List<Bindings>,
    way: &Bindings,
    fetched: &[Bindings],
) -> Result<(), NoMemory>
    ensures { OnOk result (ways.new ≡ ways.old ++ map (λ row. way.now ++ row) fetched.now) }
{
    for row in fetched {
        ways.push(with_row(alloc, way, row)?)?;
    }
    Ok(())
}

/// Each way with each of the rows.
fn with_each_row(
    alloc: Global,
    found: &[Bindings],
    fetched: &[Bindings],
) -> Result<List<Bindings>, NoMemory>
    ensures { IfOk result (λ ways. ways ≡ flat_map (λ way. map (λ row. way ++ row) fetched.now) found.now) }
{
    let mut ways = List::new(alloc);
    for way in found {
        push_ways(alloc, &mut ways, way, fetched)?;
    }
    Ok(ways)
}

fn with_step(
    alloc: Global,
    block: &BlockOnTables,
    found: &[Bindings],
    step: &DStep,
) -> Result<List<Bindings>, NoMemory>
    ensures { IfOk result (λ ways. ways
        ≡ with_row_for (rows_in block.now.tables.now) block.now.normal.now block.now.accesses.now found.now step.now) }
{
    let fetched = fetches(alloc, block, step)?;
    with_each_row(alloc, found, fetched.as_slice())
}

/// The ways after some steps, from those before them.
fn ways(
    alloc: Global,
    block: &BlockOnTables,
    starts: List<Bindings>,
    steps: &[DStep],
) -> Result<List<Bindings>, NoMemory>
    ensures { IfOk result (λ found. found
        ≡ ways (rows_in block.now.tables.now) block.now.normal.now block.now.accesses.now starts steps.now) }
{
    let mut found = starts;
    for step in steps {
        found = with_step(alloc, block, found.as_slice(), step)?;
    }
    Ok(found)
}

fn comparison_is_bound(normal: &Normal, set: &[bool], comparison: &Comparison) -> bool
    ensures { result ≡ comparison_is_bound normal.now set.now comparison.now }
{
    let left = has_class(
        set,
        class_at(normal, comparison.left.atom, comparison.left.column),
    );
    let right = operand_is_bound(normal, set, &comparison.right);
    // Both are worked out before they are joined: `&&` would part the proof in cases.
    left & right
}

fn operand_is_bound(normal: &Normal, set: &[bool], operand: &Operand) -> bool
    ensures { result ≡ operand_is_bound normal.now set.now operand.now }
{
    match operand {
        Operand::At(place) => has_class(set, class_at(normal, place.atom, place.column)),
        Operand::Fixed(_) => true,
    }
}

fn holds_in(
    normal: &Normal,
    bindings: &[(u16, Value)],
    comparison: &Comparison,
    zero: &Value,
) -> bool
    requires { zero.now ≡ Value.Int (pos 0) }
    ensures { result ≡ comparison_holds (λ p. value_of bindings.now (place_class normal.now p)) comparison.now }
{
    let place = comparison.left;
    let left = value_of(bindings, class_at(normal, place.atom, place.column), zero);
    match &comparison.right {
        Operand::At(place) => sign_holds(
            comparison.sign,
            left,
            value_of(bindings, class_at(normal, place.atom, place.column), zero),
        ),
        Operand::Fixed(value) => sign_holds(comparison.sign, left, value),
    }
}

/// Whether a comparison holds, where its columns are all bound.
fn is_met(
    normal: &Normal,
    set: &[bool],
    bindings: &[(u16, Value)],
    comparison: &Comparison,
    zero: &Value,
) -> bool
    requires { zero.now ≡ Value.Int (pos 0) }
    ensures { result ≡ comparison_is_met normal.now set.now bindings.now comparison.now }
{
    let open = !comparison_is_bound(normal, set, comparison);
    let held = holds_in(normal, bindings, comparison, zero);
    // As above: `||` would part the proof in cases.
    open | held
}

fn all_met(normal: &Normal, set: &[bool], bindings: &[(u16, Value)], zero: &Value) -> bool
    requires { zero.now ≡ Value.Int (pos 0) }
    ensures { result ≡ list_all (comparison_is_met normal.now set.now bindings.now) normal.now.comparisons }
{
    let comparisons = normal.comparisons.as_slice();
    comparisons.iter().all(|comparison| is_met(normal, set, bindings, comparison, zero))
}

fn is_consistent(normal: &Normal, set: &[bool], bindings: &[(u16, Value)]) -> bool
    ensures { result ≡ is_consistent normal.now set.now bindings.now }
{
    let zero = Value::Int(0);
    let same = agrees(bindings, &zero);
    let met = all_met(normal, set, bindings, &zero);
    // As above: `&&` would part the proof in cases.
    same & met
}

/// A copy of the value of a class by its first binding, zero where it has none.
fn copy_of_class(alloc: Global, bindings: &[(u16, Value)], class: u16) -> Result<Value, NoMemory>
    ensures { IfOk result (λ value. value ≡ value_of bindings.now class) }
{
    match bindings {
        [] => Ok(Value::Int(0)),
        [first, rest @ ..] => {
            if first.0 == class {
                first.1.copy(alloc)
            } else {
                copy_of_class(alloc, rest, class)
            }
        }
    }
}

/// The values of some classes by their first bindings, zero where one has none.
pub fn values_of(alloc: Global, bindings: &[(u16, Value)], classes: &[u16]) -> Result<Row, NoMemory>
    ensures { IfOk result (λ row. row ≡ map (value_of bindings.now) classes.now) }
{
    let mut row = List::new(alloc);
    for class in classes {
        row.push(copy_of_class(alloc, bindings, *class)?)?;
    }
    Ok(row)
}

/// Classes with their values, as far as both lists go.
pub fn bindings_between(
    alloc: Global,
    classes: &[u16],
    values: &[Value],
) -> Result<Bindings, NoMemory>
    ensures { IfOk result (λ bindings. bindings ≡ zip classes.now values.now) }
{
    match classes {
        [] => Ok(List::new(alloc)),
        [class, rest @ ..] => match values {
            [] => Ok(List::new(alloc)),
            [value, others @ ..] => {
                let later = bindings_between(alloc, rest, others)?;
                with_first(alloc, (*class, value.copy(alloc)?), later)
            }
        },
    }
}

fn with_answer(
    alloc: Global,
    normal: &Normal,
    classes: &[u16],
    answer: &[Value],
) -> Result<Bindings, NoMemory>
    ensures { IfOk result (λ start. start ≡ normal.now.constants ++ zip classes.now answer.now) }
{
    let own = bindings_between(alloc, classes, answer)?;
    append(normal.constants.copy(alloc)?, own)
}

fn with_answers(
    alloc: Global,
    normal: &Normal,
    classes: &[u16],
    answers: &[Row],
) -> Result<List<Bindings>, NoMemory>
    ensures { IfOk result (λ all. all ≡ map (λ row. normal.now.constants ++ zip classes.now row) answers.now) }
{
    let mut all = List::new(alloc);
    for answer in answers {
        all.push(with_answer(alloc, normal, classes, answer.as_slice())?)?;
    }
    Ok(all)
}

/// The bindings that stand before the first step, in each way that they can.
fn starts(
    alloc: Global,
    normal: &Normal,
    guide: &Option<List<Row>>,
) -> Result<List<Bindings>, NoMemory>
    ensures { IfOk result (λ all. all ≡ starts normal.now guide.now) }
{
    match guide {
        None => {
            let mut all = List::new(alloc);
            all.push(normal.constants.copy(alloc)?)?;
            Ok(all)
        }
        Some(answers) => {
            let classes = output_classes(alloc, normal)?;
            with_answers(alloc, normal, &classes, answers.as_slice())
        }
    }
}

/// The classes that are bound after some steps.
pub fn classes_after(
    alloc: Global,
    block: &BlockOnTables,
    guide: &Option<List<Row>>,
    steps: &[DStep],
) -> Result<List<bool>, NoMemory>
    ensures set { IfOk result (λ set. set ≡ bound_after block.now.normal.now block.now.accesses.now
        (start_classes block.now.normal.now (is_some guide.now)) steps.now) }
    ensures len { IfOk result (λ set. length set ≡ block.now.normal.now.count) }
{
    let start = start_classes(alloc, block.normal, guide.is_some())?;
    bound_after(alloc, block.normal, block.accesses, start.as_slice(), steps)
}

fn rows_on(
    alloc: Global,
    normal: &Normal,
    set: &[bool],
    classes: &[u16],
    found: &[Bindings],
) -> Result<List<Row>, NoMemory>
    ensures { IfOk result (λ rows. rows ≡ map (λ w. map (value_of w) classes.now)
        (filter (is_consistent normal.now set.now) found.now)) }
{
    let mut rows = List::new(alloc);
    for way in found {
        if is_consistent(normal, set, way.as_slice()) {
            rows.push(values_of(alloc, way.as_slice(), classes)?)?;
        }
    }
    Ok(rows)
}

/// The values of the classes of a set in each way that agrees with itself and meets the comparisons that are bound.
fn valued_rows(
    alloc: Global,
    normal: &Normal,
    set: &[bool],
    found: &[Bindings],
) -> Result<List<Row>, NoMemory>
    requires { length set.now < 65536 }
    ensures { IfOk result (λ rows. rows ≡ valued_rows normal.now set.now found.now) }
{
    let classes = classes_in(alloc, set)?;
    let rows = rows_on(alloc, normal, set, &classes, found)?;
    Ok(distinct_rows(rows))
}

/// The valuations after some steps.
#[tactic(auto, unfolding(beas_core::specs::Valuations::valuations))]
pub fn valuations_of(
    alloc: Global,
    block: &BlockOnTables,
    guide: &Option<List<Row>>,
    steps: &[DStep],
) -> Result<List<Row>, NoMemory>
    ensures { IfOk result (λ found. found
        ≡ valuations (rows_in block.now.tables.now) block.now.normal.now block.now.accesses.now guide.now steps.now) }
{
    // There are fewer than 65536 classes, as `valued_rows` asks of the set.
    recall_classes(block.normal);
    let set = classes_after(alloc, block, guide, steps)?;
    let starts = starts(alloc, block.normal, guide)?;
    let found = ways(alloc, block, starts, steps)?;
    valued_rows(alloc, block.normal, set.as_slice(), found.as_slice())
}
