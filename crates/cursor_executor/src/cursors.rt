// A query that is answered turn by turn.
ghost use Rattle.std.specs.Prelude.{◌≡◌, ◌≤◌, [], true, false, None, Ok, Some, IfOk, IsErr, IsTrue, OnErr, OnOk, is_some};
ghost use Rattle.beas_core.specs.Fits.{Fits, PreparedIsWellFormed};
ghost use Rattle.block_walk.specs.Worlds.{world};
ghost use Rattle.cursor_executor.specs.Courses.{IsCourse, fetched_by};
ghost use Rattle.cursor_executor.specs.Fetching.{AllAgree, IsWorld, reads_fetched};
ghost use Rattle.cursor_executor.specs.Turns.{HasGone, QuerySpent, TurnIs};

use crate::courses::{Course, course_of, go};
use beas_core::{AccessPort, Answer, NoMemory, Prepared, Steps, recall_bound};
use plan_ops::ask_for_all;
use std::alloc::Global;
use std::marker::Model;
use std::sync::ledger::Ledger;

/// What a turn did.
#[derive(Clone, Copy)]
pub enum Turn {
    /// It made one probe.
    Probed,
    /// No probe was due: the answer is there.
    Done,
}

/// A prepared query between two of its probes.
///
/// It keeps what it has fetched and nothing of a port. So it may go on over any port that agrees with what was fetched:
/// each step that was probed has the same constraint there, and each key that was probed the same tuples.
#[derive(Drop)]
pub struct Cursor {
    prepared: Prepared,
    course: Course,
    reads: u128,
    failed: bool,
    whole: bool,
}

impl Model for Cursor {
    ghost use Rattle.cursor_executor.specs.Fetching.{Seen, coded_seen};
    ghost use Rattle.cursor_executor.specs.Courses.{IsKept, seen_of};

    ghost Value = { Seen };

    ghost coded = { coded_seen };

    ghost view = { λ s. seen_of s.prepared s.course s.reads s.failed s.whole };

    ghost invariant = { λ s. IsKept s.prepared s.course s.reads s.failed s.whole };
}

// Makes the next probe, adds its reads, and says whether one was made.
fn probe_next<P: AccessPort, L: Ledger>(
    alloc: Global,
    port: &P,
    prepared: &Prepared,
    course: &mut Course,
    reads: &mut u128,
    steps: &mut Steps<L>,
) -> Result<bool, NoMemory>
    requires fits { IsWorld (world (P.rows port.now) (P.accesses port.now)) prepared.now }
    requires course { IsCourse prepared.now course.old }
    requires agrees { AllAgree (world (P.rows port.now) (P.accesses port.now)) prepared.now (fetched_by course.old) }
    requires reads { reads.old ≡ reads_fetched (fetched_by course.old) }
    ensures course { OnOk result (IsCourse prepared.now course.new) }
    ensures reads { OnOk result (reads.new ≡ reads_fetched (fetched_by course.new)) }
    ensures went { IfOk result (λ probed. HasGone (world (P.rows port.now) (P.accesses port.now)) prepared.now
        probed course.old course.new steps.old steps.new) }
    ensures spent { OnErr result (QuerySpent (world (P.rows port.now) (P.accesses port.now)) prepared.now
        (fetched_by course.old) steps.old steps.new) }
{
    // The reads are at most the announced number, so that their sum fits as well.
    recall_bound(prepared);
    let Some(made) = go(alloc, port, prepared, course, steps)? else {
        return Ok(false);
    };
    *reads += made as u128;
    Ok(true)
}

impl Cursor {
    /// A cursor that has fetched nothing.
    pub fn begin(alloc: Global, prepared: Prepared) -> Result<Cursor, NoMemory>
        requires { PreparedIsWellFormed prepared }
        ensures { IfOk result (λ cursor. cursor
            ≡ record { prepared = prepared; fetched = []; reads = 0; failed = false; answer = None }) }
    {
        let course = course_of(alloc, &prepared)?;
        Ok(Cursor {
            prepared,
            course,
            reads: 0,
            failed: false,
            whole: false,
        })
    }

    /// The query, with all that is announced of it.
    pub fn prepared(&self) -> &Prepared
        ensures { result.now ≡ self.now.prepared }
    {
        &self.prepared
    }

    /// Makes the next probe that is due, and no other. Where none is due the answer is there, now and after any further
    /// turn. Out of memory, the cursor has failed: each further turn says so and probes nothing.
    pub fn advance<P: AccessPort, L: Ledger>(
        &mut self,
        alloc: Global,
        port: &P,
        steps: &mut Steps<L>,
    ) -> Result<Turn, NoMemory>
        requires fits { Fits (P.accesses port.now) (P.rows port.now) self.old.prepared }
        requires agrees { self.old.failed ≡ false
            → AllAgree (world (P.rows port.now) (P.accesses port.now)) self.old.prepared self.old.fetched }
        ensures prepared { self.new.prepared ≡ self.old.prepared }
        ensures turn { IfOk result
            (λ turn. TurnIs (world (P.rows port.now) (P.accesses port.now)) turn self.old self.new
            steps.old steps.new) }
        ensures bound { OnOk result (self.new.reads ≤ self.old.prepared.bound) }

        ensures failed { OnErr result (self.new.failed ≡ true) }
        ensures spent { OnErr result (QuerySpent (world (P.rows port.now) (P.accesses port.now)) self.old.prepared
            self.old.fetched steps.old steps.new) }
        ensures failed_before { self.old.failed ≡ true → IsErr result × (steps.new ≡ steps.old) }
        ensures once_whole { IsTrue (is_some self.old.answer) → result ≡ Ok Turn.Done }
    {
        if self.failed {
            return Err(NoMemory);
        }
        let prepared = &self.prepared;
        ask_for_all(port, prepared.derivations.as_slice());
        if self.whole {
            return Ok(Turn::Done);
        }
        // Until the turn has succeeded, the cursor counts as failed.
        self.failed = true;
        let probed = probe_next(
            alloc,
            port,
            prepared,
            &mut self.course,
            &mut self.reads,
            steps,
        )?;
        self.failed = false;
        if probed {
            return Ok(Turn::Probed);
        }
        self.whole = true;
        Ok(Turn::Done)
    }

    /// The answer of a cursor that is whole, and its reads. It takes no memory.
    pub fn finish(self) -> Answer
        requires { IsTrue (is_some self.answer) }
        ensures rows { Some result.rows ≡ self.answer }
        ensures reads { result.reads ≡ self.reads }
    {
        let reads = self.reads;
        let mut course = self.course;
        let rows = course.stack.pop().unwrap();
        drop(course);
        drop(self.prepared);
        Answer { rows, reads }
    }
}

/// A cursor and its course have these fields and no others: with a further one, such as a copy of the rows of a table, this
/// wouldn't compile. `block_walk::walk_fields` says so of its walks.
pub fn cursor_fields(cursor: &Cursor) {
    let Cursor {
        prepared: _prepared,
        course,
        reads: _reads,
        failed: _failed,
        whole: _whole,
    } = cursor;
    let Course {
        operations: _operations,
        position: _position,
        stack: _stack,
        finished: _finished,
        walk: _walk,
    } = course;
}
