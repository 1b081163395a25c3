// Queries over the tables that there are.
ghost use Rattle.std.specs.Prelude.{IfOk};
ghost use Rattle.beas_core.specs.Shapes.{QueryIsWellFormed};

use crate::statements::statement_of;
use beas_core::{Fail, Limits, Query, Refusal};
use binder::bind;
use catalogue::Catalogue;
use sql_text::Statement;
use std::alloc::Global;

/// The query that a text spells, over the tables of a catalogue. A statement that is none is refused as 1.
pub fn bound_query(alloc: Global, catalogue: &Catalogue, spelled: &str) -> Result<Query, Fail>
    ensures { IfOk result QueryIsWellFormed }
{
    let statement = statement_of(alloc, spelled)?;
    let outcome = match &statement {
        Statement::Select { tree } => bind(alloc, catalogue, &Limits::standard(), tree),
        _ => Err(Fail::Refused(Refusal::Syntax)),
    };
    drop(statement);
    outcome
}
