// The valuations before the first step, of a block by itself and of a guided one.
ghost use Rattle.std.specs.Prelude.{◌≡◌, ◌<◌, ◌∷◌, ◌++◌, [], length, map, flat_map, zip, All, IfOk, OnOk, None, Some, if◌then◌else◌, is_some, true};
ghost use Rattle.std.specs.Option.{option_copied};
ghost use Rattle.beas_core.specs.Coverage.{ClassesInRange, ConstantsInRange, constant_classes, output_classes, start_classes};
ghost use Rattle.beas_core.specs.Valuations.{agrees, classes_in, starts, value_of, valued_rows};
ghost use Rattle.beas_core.specs.Guides.{GuideFits};
ghost use Rattle.plan_ops.specs.Over.{IsOver};
ghost use Rattle.plan_ops.specs.Started.{one_row};
ghost use Rattle.plan_ops.specs.Places.{place_of, places_in};

use crate::keeping::keep;
use crate::tables::{ClassList, classes_of, first_positions};
use crate::valuations::Valuations;
use beas_core::{Duplicate, List, NoMemory, Normal, Row, Value, class_at, sort_distinct};
use std::alloc::Global;

// The class of each constant.
fn classes_equated(alloc: Global, constants: &[(u16, Value)]) -> Result<Vec<u16>, NoMemory>
    ensures { IfOk result (λ classes. classes.items ≡ map (λ c. c.0) constants.now) }
{
    let mut classes = Vec::with_capacity(alloc, constants.len())?;
    for constant in constants {
        classes.push_reserved(constant.0);
    }
    Ok(classes)
}

// Whether no class is equated with two values.
fn constants_agree(constants: &[(u16, Value)], count: u16, places: &[usize]) -> bool
    requires classes { All (λ c. c.0 < count) constants.now }
    requires places { places.now ≡ places_in count (map (λ c. c.0) constants.now) }
    ensures { result ≡ agrees constants.now }
{
    for constant in constants {
        let first = &constants[places[usize::from(constant.0)]];
        if constant.1 != first.1 {
            return false;
        }
    }
    true
}

// The value of each class, by its first constant.
fn constant_row(
    alloc: Global,
    constants: &[(u16, Value)],
    count: u16,
    places: &[usize],
    classes: &[u16],
) -> Result<Row, NoMemory>
    requires places { places.now ≡ places_in count (map (λ c. c.0) constants.now) }
    requires classes { All (λ class. class < count) classes.now }
    requires equated { All (λ class. place_of (map (λ c. c.0) constants.now) class < length constants.now) classes.now }
    ensures { IfOk result (λ row. row ≡ map (value_of constants.now) classes.now) }
{
    let mut row = Vec::with_capacity(alloc, classes.len())?;
    for class in classes {
        let first = &constants[places[usize::from(*class)]];
        row.push_reserved(first.1.copy(alloc)?);
    }
    Ok(List::from_vec(row))
}

// Adds the row of the constants, unless they contradict each other.
fn push_constant_row(
    alloc: Global,
    constants: &[(u16, Value)],
    count: u16,
    places: &[usize],
    classes: &[u16],
    rows: &mut Vec<Row>,
) -> Result<(), NoMemory>
    requires constants { All (λ c. c.0 < count) constants.now }
    requires places { places.now ≡ places_in count (map (λ c. c.0) constants.now) }
    requires classes { All (λ class. class < count) classes.now }
    requires equated { All (λ class. place_of (map (λ c. c.0) constants.now) class < length constants.now) classes.now }
    ensures { OnOk result (rows.new.items ≡ rows.old.items
        ++ (if agrees constants.now then map (value_of constants.now) classes.now ∷ [] else [])) }
{
    if constants_agree(constants, count, places) {
        rows.push(constant_row(alloc, constants, count, places, classes)?)?;
    }
    Ok(())
}

/// The valuations of the constant classes of a block by itself: one, or none where constants contradict each other or
/// a comparison of constant classes isn't met.
pub fn start(alloc: Global, block: &Normal) -> Result<Valuations, NoMemory>
    requires { ConstantsInRange block.now }
    ensures over { IfOk result (IsOver (constant_classes block.now)) }
    ensures rows { IfOk result (λ found. found.rows
        ≡ valued_rows block.now (constant_classes block.now) (starts block.now None)) }
{
    let constants = block.constants.as_slice();
    let list = ClassList::of_constants(block, constants);
    let places = first_positions(alloc, block.count, &list)?;
    let classes = classes_of(alloc, block, &places, &list)?;
    let mut rows = Vec::new(alloc);
    push_constant_row(
        alloc,
        constants,
        block.count,
        &places,
        classes.as_slice(),
        &mut rows,
    )?;
    let mut found = Valuations {
        classes,
        rows: List::from_vec(rows),
    };
    keep(block, &mut found);
    Ok(found)
}

// The class of each constant of a block, and then that of each place of its output.
fn classes_with_output(alloc: Global, block: &Normal) -> Result<Vec<u16>, NoMemory>
    ensures { IfOk result (λ classes. classes.items
        ≡ map (λ c. c.0) block.now.constants ++ output_classes block.now) }
{
    let mut classes = classes_equated(alloc, block.constants.as_slice())?;
    for place in block.output.as_slice() {
        classes.push(class_at(block, place.atom, place.column))?;
    }
    Ok(classes)
}

// Equates the class of each place of the output with the value that a row of the guide has there.
fn equate_output(
    alloc: Global,
    block: &Normal,
    row: &[Value],
    constants: &mut Vec<(u16, Value)>,
) -> Result<(), NoMemory>
    requires { length row.now ≡ length block.now.output }
    ensures { IfOk result (λ done. constants.new.items ≡ constants.old.items ++ zip (output_classes block.now) row.now) }
{
    let output = block.output.as_slice();
    for at in 0..output.len() {
        let class = class_at(block, output[at].atom, output[at].column);
        constants.push((class, row[at].copy(alloc)?))?;
    }
    Ok(())
}

// For each row of the guide the row of the constants with its values, where they don't contradict each other.
fn guided_rows(
    alloc: Global,
    block: &Normal,
    answers: &[Row],
    places: &[usize],
    classes: &[u16],
) -> Result<Vec<Row>, NoMemory>
    requires constants { ConstantsInRange block.now }
    requires ranges { ClassesInRange block.now }
    requires widths { All (λ row. length row ≡ length block.now.output) answers.now }
    requires places { places.now
        ≡ places_in block.now.count (map (λ c. c.0) block.now.constants ++ output_classes block.now) }
    requires classes { classes.now ≡ classes_in (start_classes block.now true) }
    ensures { IfOk result (λ rows. rows.items
        ≡ flat_map (one_row (start_classes block.now true)) (starts block.now (Some answers.now))) }
{
    let mut constants = block.constants.copy(alloc)?.into_vec();
    let own = constants.len();
    let mut rows = Vec::new(alloc);
    for answer in answers {
        constants.truncate(own);
        equate_output(alloc, block, answer.as_slice(), &mut constants)?;
        push_constant_row(alloc, &constants, block.count, places, classes, &mut rows)?;
    }
    Ok(rows)
}

// The valuations before the first step of a guided block: those that each row of its guide starts with, as one set.
fn start_guided(alloc: Global, block: &Normal, answers: &[Row]) -> Result<Valuations, NoMemory>
    requires constants { ConstantsInRange block.now }
    requires ranges { ClassesInRange block.now }
    requires widths { All (λ row. length row ≡ length block.now.output) answers.now }
    ensures over { IfOk result (IsOver (start_classes block.now true)) }
    ensures rows { IfOk result (λ found. found.rows
        ≡ valued_rows block.now (start_classes block.now true) (starts block.now (Some answers.now))) }
{
    let equated = classes_with_output(alloc, block)?;
    let list = ClassList::of(block, &equated);
    let places = first_positions(alloc, block.count, &list)?;
    let classes = classes_of(alloc, block, &places, &list)?;
    let rows = guided_rows(alloc, block, answers, &places, classes.as_slice())?;
    let mut found = Valuations {
        classes,
        rows: List::from_vec(rows),
    };
    keep(block, &mut found);
    Ok(Valuations {
        classes: found.classes,
        rows: List::from_vec(sort_distinct(found.rows.into_vec())),
    })
}

/// The valuations before the first step of a block, which its guide's answers start where it is guided: those of its
/// constants, and for a guided block those of each row of its guide with its constants.
pub fn start_block(
    alloc: Global,
    block: &Normal,
    guide: Option<&List<Row>>,
) -> Result<Valuations, NoMemory>
    requires constants { ConstantsInRange block.now }
    requires ranges { ClassesInRange block.now }
    requires fits { GuideFits block.now (option_copied guide) }
    ensures over { IfOk result (IsOver (start_classes block.now (is_some (option_copied guide.entry)))) }
    ensures rows { IfOk result (λ found. found.rows ≡ valued_rows block.now
        (start_classes block.now (is_some (option_copied guide.entry)))
        (starts block.now (option_copied guide.entry))) }
{
    match guide {
        None => start(alloc, block),
        Some(answers) => start_guided(alloc, block, answers.as_slice()),
    }
}
