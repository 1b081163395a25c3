// What guided blocks find.
use crate::plans_on_tables::PlansOnTables;
use crate::probes::BlockProbe;
use beas_core::{Access, ColumnId, List, Normal, Place, Row, Value, class_at};
use reference_coverage::{Task, access_with, is_guided, steps_of};

/// How many blocks have a guide, and how many of them
///
/// - are covered by themselves, so that they aren't guided;
/// - are guided;
/// - are guided, and a probe of them gives a tuple;
/// - are guided and make no probe, since no answer of their guide agrees with their conditions, or there is none;
/// - are guided, and a column of their output is equated with a constant;
/// - are guided, and have a column twice in their output.
#[derive(Clone, Copy)]
pub struct GuidedBlocks {
    pub alone: u32,
    pub guided: u32,
    pub finding: u32,
    pub silent: u32,
    pub fixed: u32,
    pub repeating: u32,
}

impl GuidedBlocks {
    /// No blocks.
    pub fn none() -> GuidedBlocks {
        GuidedBlocks {
            alone: 0,
            guided: 0,
            finding: 0,
            silent: 0,
            fixed: 0,
            repeating: 0,
        }
    }

    /// Those of both.
    pub fn with(self, other: GuidedBlocks) -> GuidedBlocks {
        GuidedBlocks {
            alone: self.alone.saturating_add(other.alone),
            guided: self.guided.saturating_add(other.guided),
            finding: self.finding.saturating_add(other.finding),
            silent: self.silent.saturating_add(other.silent),
            fixed: self.fixed.saturating_add(other.fixed),
            repeating: self.repeating.saturating_add(other.repeating),
        }
    }
}

/// Whether a row has this value in a column.
fn has_value(row: &[Value], column: ColumnId, value: &Value) -> bool {
    match row.get(usize::from(column.0)) {
        Some(held) => *held == *value,
        None => false,
    }
}

/// Whether a row has the values of a key in these columns.
fn has_key(row: &[Value], columns: &[ColumnId], key: &[Value]) -> bool {
    columns
        .iter()
        .zip(key)
        .all(|(column, value)| has_value(row, *column, value))
}

/// Whether a table has a row with this key of a constraint.
fn holds_key(tables: &[List<Row>], access: &Access, key: &[Value]) -> bool {
    match tables.get(access.table.0 as usize) {
        Some(rows) => {
            let columns = access.key.as_slice();
            rows.as_slice()
                .iter()
                .any(|row| has_key(row.as_slice(), columns, key))
        }
        None => false,
    }
}

/// Whether a probe gives a tuple.
fn gives_tuple(over: &PlansOnTables, probe: &BlockProbe) -> bool {
    let steps = steps_of(over.plans.derivations, probe.block);
    let Some(step) = steps.get(probe.probe.step) else {
        return false;
    };
    match access_with(over.plans.accesses, step.access) {
        Some(access) => holds_key(over.tables, access, probe.probe.key.as_slice()),
        None => false,
    }
}

/// Whether a column of the output is equated with a constant.
fn fixes_output(normal: &Normal) -> bool {
    normal.output.as_slice().iter().any(|place| {
        let class = class_at(normal, place.atom, place.column);
        let constants = normal.constants.as_slice();
        constants.iter().any(|constant| constant.0 == class)
    })
}

fn is_place(left: Place, right: Place) -> bool {
    left.atom == right.atom && left.column.0 == right.column.0
}

/// Whether a column stands twice in an output.
fn repeats(output: &[Place]) -> bool {
    match output {
        [] => false,
        [first, rest @ ..] => rest.iter().any(|other| is_place(*first, *other)) || repeats(rest),
    }
}

/// The guided block with this number by itself.
fn guided_block(
    over: &PlansOnTables,
    number: usize,
    normal: &Normal,
    probes: &[BlockProbe],
) -> GuidedBlocks {
    let is_silent = !probes.iter().any(|probe| probe.block == number);
    let is_finding = probes
        .iter()
        .any(|probe| probe.block == number && gives_tuple(over, probe));
    GuidedBlocks {
        alone: 0,
        guided: 1,
        finding: u32::from(is_finding),
        silent: u32::from(is_silent),
        fixed: u32::from(fixes_output(normal)),
        repeating: u32::from(repeats(normal.output.as_slice())),
    }
}

/// Those of a query with these blocks and these probes.
pub fn guided_blocks(over: &PlansOnTables, tasks: &[Task], probes: &[BlockProbe]) -> GuidedBlocks {
    let mut found = GuidedBlocks::none();
    for (number, task) in tasks.iter().enumerate() {
        if is_guided(over.plans.guided, number) {
            found = found.with(guided_block(over, number, &task.normal, probes));
        } else if task.has_guide {
            found.alone = found.alone.saturating_add(1);
        }
    }
    found
}
