// What the reference programs give for a block of a case, as text.
ghost use Rattle.reference_coverage.specs.Tasks.{HasFewAtoms};

use beas_core::{Access, ColumnId, DStep, Normal, NotCovered};
use named_blocks::{NamedBlock, NamedCase, Wrong};
use reference_coverage::{
    Task, announced_number, covered_set, is_guided_task, task_reason, task_start,
};
use std::alloc::Global;
use std::fmt::Write;

/// A block's classes and needed columns by atom, whether it is guided, the covered classes, and its steps, before whose
/// first so many valuations stand, or why it isn't covered.
pub fn show_block(
    alloc: Global,
    shown: &mut String,
    case: &NamedCase,
    named: &NamedBlock,
    task: &Task,
    size: Option<u128>,
    steps: &[DStep],
) -> Result<(), Wrong>
    requires { HasFewAtoms task.now }
{
    show_classes(shown, named, &task.normal)?;
    show_needed(shown, case, named, &task.normal)?;
    if is_guided_task(alloc, task)? {
        writeln!(shown, "  is guided")?;
    }
    let start = task_start(alloc, task)?;
    let covered = covered_set(alloc, &task.normal, task.accesses, start.as_slice())?;
    show_covered(shown, covered.as_slice())?;
    match task_reason(alloc, task)? {
        Some(why) => show_reason(shown, case, named, why),
        None => show_steps(shown, case, named, size, steps),
    }
}

fn atom_name(named: &NamedBlock, atom: u16) -> &str {
    match named.atoms.get(usize::from(atom)) {
        Some(name) => name.as_str(),
        None => "?",
    }
}

fn column_name<'a>(case: &'a NamedCase, named: &NamedBlock, atom: u16, column: u16) -> &'a str {
    match named.block.atoms.as_slice().get(usize::from(atom)) {
        Some(found) => match case.columns_of(found.table).get(usize::from(column)) {
            Some(name) => name.as_str(),
            None => "?",
        },
        None => "?",
    }
}

fn show_numbers(shown: &mut String, numbers: &[u16]) -> Result<(), Wrong> {
    for number in numbers {
        write!(shown, " {number}")?;
    }
    shown.push('\n')?;
    Ok(())
}

fn show_classes(shown: &mut String, named: &NamedBlock, normal: &Normal) -> Result<(), Wrong> {
    for (name, classes) in named.atoms.iter().zip(normal.classes.as_slice()) {
        write!(shown, "  classes of {name}:")?;
        show_numbers(shown, classes.as_slice())?;
    }
    Ok(())
}

fn show_columns(
    shown: &mut String,
    case: &NamedCase,
    named: &NamedBlock,
    atom: u16,
    columns: &[ColumnId],
) -> Result<(), Wrong> {
    write!(shown, "  needed of {}:", atom_name(named, atom))?;
    for column in columns {
        write!(shown, " {}", column_name(case, named, atom, column.0))?;
    }
    shown.push('\n')?;
    Ok(())
}

fn show_needed(
    shown: &mut String,
    case: &NamedCase,
    named: &NamedBlock,
    normal: &Normal,
) -> Result<(), Wrong> {
    let mut atom: u16 = 0;
    for columns in normal.needed.as_slice() {
        show_columns(shown, case, named, atom, columns.as_slice())?;
        atom = atom.saturating_add(1);
    }
    Ok(())
}

fn show_covered(shown: &mut String, covered: &[bool]) -> Result<(), Wrong> {
    shown.push_str("  covered:")?;
    for (class, held) in covered.iter().enumerate() {
        if *held {
            write!(shown, " {class}")?;
        }
    }
    shown.push('\n')?;
    Ok(())
}

fn show_steps(
    shown: &mut String,
    case: &NamedCase,
    named: &NamedBlock,
    first: Option<u128>,
    steps: &[DStep],
) -> Result<(), Wrong> {
    let mut size = first;
    for step in steps {
        let cost = cost_of(case.accesses.as_slice(), size, *step);
        if step.adds {
            size = cost;
        }
        let atom = atom_name(named, step.atom);
        let access = case.access_name(step.access);
        let word = if step.adds { "adds" } else { "checks" };
        write!(shown, "  step {atom} by {access} {word}")?;
        show_number(shown, "cost", cost)?;
        show_number(shown, "size", size)?;
        shown.push('\n')?;
    }
    Ok(())
}

fn show_number(shown: &mut String, word: &str, number: Option<u128>) -> Result<(), Wrong> {
    match number {
        Some(number) => write!(shown, " {word} {number}")?,
        None => write!(shown, " {word} past")?,
    }
    Ok(())
}

// What one step costs, where so many valuations stand before it.
fn cost_of(accesses: &[Access], size: Option<u128>, step: DStep) -> Option<u128> {
    match size {
        Some(size) => announced_number(accesses, size, &[step]),
        None => None,
    }
}

fn show_reason(
    shown: &mut String,
    case: &NamedCase,
    named: &NamedBlock,
    why: NotCovered,
) -> Result<(), Wrong> {
    match why {
        NotCovered::ColumnOpen { atom, column } => {
            let name = atom_name(named, atom);
            let column = column_name(case, named, atom, column.0);
            writeln!(shown, "  open column {name}.{column}")?;
        }
        NotCovered::AtomUnindexed { atom } => {
            writeln!(shown, "  nothing serves {}", atom_name(named, atom))?;
        }
    }
    Ok(())
}
