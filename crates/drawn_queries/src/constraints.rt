// Drawn constraints that hold over drawn rows.
ghost use Rattle.std.specs.Prelude.{◌≤◌};

use beas_core::{AccessSpec, List, Name, NoMemory, Text};
use drawn_scenes::{Draws, Rule, TABLES, Twin, column_name, table_name};
use std::alloc::Global;

/// So many columns has each table.
const COLUMNS: u8 = 4;

/// Adds some columns in order, each of which is taken once in so many turns.
fn draw_columns(columns: &mut Vec<u8>, draws: &mut Draws, turns: u8) -> Result<(), NoMemory>
    requires { 1 ≤ turns }
{
    for column in 0..COLUMNS {
        if draws.below(turns) == 0 {
            columns.push(column)?;
        }
    }
    Ok(())
}

/// A constraint without columns and limit on a drawn table, named by a number.
fn draw_named(alloc: Global, draws: &mut Draws, number: u32) -> Result<Rule, NoMemory> {
    Ok(Rule {
        name: format!(in alloc; "k{number}")?,
        table: draws.below(TABLES),
        key: Vec::new(alloc),
        fetched: Vec::new(alloc),
        bound: 0,
    })
}

/// A constraint without a limit, named by a number.
fn draw_rule(alloc: Global, draws: &mut Draws, number: u32) -> Result<Rule, NoMemory> {
    let mut rule = draw_named(alloc, draws, number)?;
    draw_columns(&mut rule.key, draws, 4)?;
    draw_columns(&mut rule.fetched, draws, 2)?;
    Ok(rule)
}

fn push_names(alloc: Global, names: &mut List<Name>, columns: &[u8]) -> Result<(), NoMemory> {
    for column in columns {
        if let Some(name) = Name::of(alloc, column_name(*column))? {
            names.push(name)?;
        }
    }
    Ok(())
}

/// A constraint with the names of a drawn one, without columns and limit.
fn named_spec(alloc: Global, rule: &Rule) -> Result<Option<AccessSpec>, NoMemory> {
    let Some(name) = Name::of(alloc, rule.name.as_str())? else {
        return Ok(None);
    };
    let Some(table) = Name::of(alloc, table_name(rule.table))? else {
        return Ok(None);
    };
    Ok(Some(AccessSpec {
        name,
        table,
        key: List::new(alloc),
        fetched: List::new(alloc),
        limit: Text::new(alloc),
    }))
}

/// Adds the columns of a drawn constraint, and a limit.
fn fill_spec(
    alloc: Global,
    spec: &mut AccessSpec,
    rule: &Rule,
    limit: usize,
) -> Result<(), NoMemory> {
    push_names(alloc, &mut spec.key, &rule.key)?;
    push_names(alloc, &mut spec.fetched, &rule.fetched)?;
    spec.limit.push_str(format!(in alloc; "{limit}")?.as_str())
}

/// Adds a constraint as the store is asked to make it.
fn push_spec(
    alloc: Global,
    specs: &mut List<AccessSpec>,
    rule: &Rule,
    limit: usize,
) -> Result<(), NoMemory> {
    match named_spec(alloc, rule)? {
        Some(mut spec) => {
            fill_spec(alloc, &mut spec, rule, limit)?;
            specs.push(spec)
        }
        None => Ok(()),
    }
}

/// Adds a drawn constraint, named by a number.
fn push_drawn(
    alloc: Global,
    specs: &mut List<AccessSpec>,
    twin: &mut Twin,
    number: u32,
) -> Result<(), NoMemory> {
    let rule = draw_rule(alloc, &mut twin.draws, number)?;
    let most = rule.greatest(alloc, &twin.plain.rows)?;
    let limit = most.saturating_add(usize::from(twin.draws.below(3)));
    push_spec(alloc, specs, &rule, limit)
}

/// So many drawn constraints, named by the numbers from `first` on. Each has its greatest group as its limit, or up to
/// two more.
pub fn draw_constraints(
    alloc: Global,
    twin: &mut Twin,
    first: u32,
    count: u8,
) -> Result<List<AccessSpec>, NoMemory> {
    let mut specs = List::new(alloc);
    for place in 0..count {
        push_drawn(
            alloc,
            &mut specs,
            twin,
            first.saturating_add(u32::from(place)),
        )?;
    }
    Ok(specs)
}
