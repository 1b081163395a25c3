// Queries as a session announces them.
ghost use Rattle.std.specs.Prelude.{IfOk};
ghost use Rattle.beas_core.specs.Fits.{Fits};
ghost use Rattle.catalogue.specs.Database.{rows_at};
ghost use Rattle.session.specs.Stores.{database_in};

use crate::statements::statement_of;
use beas_core::{Fail, Prepared, Refusal};
use session::Session;
use sql_text::Statement;
use std::alloc::Global;

/// The query that a text spells, as a session announces it. A statement that is none is refused as 1.
pub fn announced_query(alloc: Global, session: &Session, spelled: &str) -> Result<Prepared, Fail>
    ensures { IfOk result (Fits session.now.guarded.catalogue.accesses (rows_at (database_in session.now.guarded))) }
{
    let statement = statement_of(alloc, spelled)?;
    let outcome = match &statement {
        Statement::Select { tree } => session.announce(alloc, tree),
        _ => Err(Fail::Refused(Refusal::Syntax)),
    };
    drop(statement);
    outcome
}
