// A query answered by a cursor and by the executor.
ghost use Rattle.std.specs.Prelude.{◌≡◌, false, IsTrue, OnOk, is_some};
ghost use Rattle.beas_core.specs.Fits.{Fits};
ghost use Rattle.block_walk.specs.Worlds.{world};
ghost use Rattle.cursor_executor.specs.Fetching.{AllAgree};

use beas_core::{AccessPort, Answer, Fail, NoMemory, Prepared, Steps};
use cursor_executor::{Cursor, Turn};
use drawn_scenes::announced_query;
use plan_executor::execute;
use session::Session;
use std::alloc::Global;
use std::sync::ledger::Ledger;

/// What a cursor gave of a query: how many turns made a probe, how many rows and reads the answer has, and whether it
/// is that of the executor.
#[derive(Clone, Copy)]
pub struct Turned {
    pub probes: u32,
    pub rows: usize,
    pub reads: u128,
    pub agrees: bool,
}

/// Drives a cursor turn by turn until no probe is due. Gives how many turns made one.
fn count_probes<P: AccessPort, L: Ledger>(
    alloc: Global,
    port: &P,
    cursor: &mut Cursor,
    steps: &mut Steps<L>,
) -> Result<u32, NoMemory>
    requires fits { Fits (P.accesses port.now) (P.rows port.now) cursor.old.prepared }
    requires going { cursor.old.failed ≡ false }
    requires agrees { AllAgree (world (P.rows port.now) (P.accesses port.now)) cursor.old.prepared
        cursor.old.fetched }
    ensures { OnOk result (IsTrue (is_some cursor.new.answer)) }
{
    let mut probes: u32 = 0;
    'turns: while let Turn::Probed = cursor.advance(alloc, port, steps)? {
        probes = probes.saturating_add(1);
    }
    Ok(probes)
}

/// What a cursor gives that is driven turn by turn, and after how many probes.
fn turn_by_turn<P: AccessPort, L: Ledger>(
    alloc: Global,
    port: &P,
    prepared: Prepared,
    steps: &mut Steps<L>,
) -> Result<(Answer, u32), NoMemory>
    requires { Fits (P.accesses port.now) (P.rows port.now) prepared }
{
    let mut cursor = Cursor::begin(alloc, prepared)?;
    match count_probes(alloc, port, &mut cursor, steps) {
        Ok(probes) => Ok((cursor.finish(), probes)),
        Err(why) => {
            drop(cursor);
            Err(why)
        }
    }
}

/// Whether two answers have the same rows and reads.
fn are_same(left: &Answer, right: &Answer) -> bool {
    left.rows == right.rows && left.reads == right.reads
}

/// What a cursor gives, and whether it is what the executor gave.
fn turned_beside<P: AccessPort, L: Ledger>(
    alloc: Global,
    port: &P,
    prepared: Prepared,
    executed: &Answer,
    steps: &mut Steps<L>,
) -> Result<Turned, NoMemory>
    requires { Fits (P.accesses port.now) (P.rows port.now) prepared }
{
    let (answer, probes) = turn_by_turn(alloc, port, prepared, steps)?;
    Ok(Turned {
        probes,
        rows: answer.rows.len(),
        reads: answer.reads,
        agrees: are_same(&answer, executed),
    })
}

/// What a cursor and the executor give of a query.
fn turned_prepared<P: AccessPort, L: Ledger>(
    alloc: Global,
    port: &P,
    prepared: Prepared,
    steps: &mut Steps<L>,
) -> Result<Turned, NoMemory>
    requires { Fits (P.accesses port.now) (P.rows port.now) prepared }
{
    match execute(alloc, port, &prepared, steps) {
        Ok(executed) => turned_beside(alloc, port, prepared, &executed, steps),
        Err(why) => {
            drop(prepared);
            Err(why)
        }
    }
}

/// What a cursor and the executor give of the query that a text spells, over the store of a session.
pub fn turned_query<L: Ledger>(
    alloc: Global,
    session: &Session,
    spelled: &str,
    steps: &mut Steps<L>,
) -> Result<Turned, Fail> {
    let prepared = announced_query(alloc, session, spelled)?;
    Ok(turned_prepared(alloc, &session.guarded, prepared, steps)?)
}
