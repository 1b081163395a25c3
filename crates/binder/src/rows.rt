// Binds the rows of an INSERT.
ghost use Rattle.std.specs.Prelude.{◌≡◌, IfOk};
ghost use Rattle.std.specs.List.{flat_map};
ghost use Rattle.name_resolution.specs.Binding.{number_refusals, text_refusals, row_refusals, bound_row, bound_rows};
ghost use Rattle.beas_core.specs.Results.{IsRefusedAs};
ghost use Rattle.name_resolution.specs.Refusing.{first};

use beas_core::{Fail, Limits, List, Row};
use name_resolution::{literal_value, refuse_text};
use sql_text::Literal;
use std::alloc::Global;

/// The values of a row's literals.
fn bound_row(alloc: Global, literals: &[Literal]) -> Result<Row, Fail>
    ensures row { IfOk result (λ row. row ≡ bound_row literals.now) }
    ensures refused { IsRefusedAs result (first (flat_map number_refusals literals.now)) }
{
    let mut row = List::new(alloc);
    for literal in literals {
        row.push(literal_value(alloc, literal)?)?;
    }
    Ok(row)
}

fn bound_rows(alloc: Global, rows: &[List<Literal>]) -> Result<List<Row>, Fail>
    ensures rows { IfOk result (λ bound. bound ≡ bound_rows rows.now) }
    ensures refused { IsRefusedAs result (first (flat_map (flat_map number_refusals) rows.now)) }
{
    let mut all = List::new(alloc);
    for row in rows {
        all.push(bound_row(alloc, row.as_slice())?)?;
    }
    Ok(all)
}

fn refuse_long_literal(limit: u32, literal: &Literal) -> Result<(), Fail>
    ensures { IsRefusedAs result (first (text_refusals limit literal.now)) }
{
    match literal {
        Literal::Number { .. } => Ok(()),
        Literal::Words { text } => refuse_text(limit, text),
    }
}

fn refuse_long_literals(limit: u32, literals: &[Literal]) -> Result<(), Fail>
    ensures { IsRefusedAs result (first (flat_map (text_refusals limit) literals.now)) }
{
    for literal in literals {
        refuse_long_literal(limit, literal)?;
    }
    Ok(())
}

fn refuse_long_rows(limit: u32, rows: &[List<Literal>]) -> Result<(), Fail>
    ensures { IsRefusedAs result (first (flat_map (flat_map (text_refusals limit)) rows.now)) }
{
    for row in rows {
        refuse_long_literals(limit, row.as_slice())?;
    }
    Ok(())
}

/// Binds the rows of an INSERT. Numbers that no i64 has are refused before texts that are too long.
#[tactic(auto, unfolding(name_resolution::specs::Binding::row_refusals))]
pub fn bind_rows(
    alloc: Global,
    limits: &Limits,
    rows: &List<List<Literal>>,
) -> Result<List<Row>, Fail>
    ensures refused { IsRefusedAs result (first (row_refusals limits.now rows.now)) }
    ensures rows { IfOk result (λ bound. bound ≡ bound_rows rows.now) }
{
    let bound = bound_rows(alloc, rows.as_slice())?;
    refuse_long_rows(limits.text, rows.as_slice())?;
    Ok(bound)
}
