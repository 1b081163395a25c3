// The calls that tell of the last report.
ghost use Rattle.std.specs.Prelude.{◌≡◌, IfErr, IfOk, Some, option_map};
ghost use Rattle.beas_core.specs.Refusals.{number_of};
ghost use Rattle.report.specs.Reports.{report_text};
ghost use Rattle.report.specs.Texts.{refusal_text};
ghost use Rattle.beas_library.specs.Told.{bound_told, count_told, plan_told, reads_told, refusal_told, session_told};
ghost use Rattle.beas_c.specs.Statuses.{no_memory};
ghost use Rattle.beas_c.specs.Telling.{CopiesSome, HasCopied, HasTold, HasToldWide, MayCopy, kind_of};

use crate::database::Database;
use crate::status::{ABSENT, CLOSED, NO_MEMORY};
use crate::telling::{copy, copy_bytes, kind_of, tell, tell_wide};
use beas_core::{NoMemory, Text};
use std::alloc::Global;

/// The kind of the report.
#[unsafe(no_mangle)]
pub extern "C" fn beas_kind(db: &mut Database, alloc: Global, kind: &mut i32) -> i32
    ensures told { HasTold (λ engine. Some (kind_of engine.report)) db.old.seat.value result kind.old kind.new }
    ensures same { db.new.seat.value ≡ db.old.seat.value }
{
    match db.take(alloc) {
        Some(held) => {
            let status = tell(Some(kind_of(held.engine.report())), kind);
            db.put(held);
            status
        }
        None => CLOSED,
    }
}

/// The number of the statement, from 1 on.
#[unsafe(no_mangle)]
pub extern "C" fn beas_number(db: &mut Database, alloc: Global, number: &mut u32) -> i32
    ensures told { HasTold (λ engine. option_map (λ _. engine.number) engine.report)
        db.old.seat.value result number.old number.new }
    ensures same { db.new.seat.value ≡ db.old.seat.value }
{
    match db.take(alloc) {
        Some(held) => {
            let status = tell(held.engine.number(), number);
            db.put(held);
            status
        }
        None => CLOSED,
    }
}

/// The text that is there, if memory has room for it.
fn copy_made(made: Result<Option<Text>, NoMemory>, into: &mut [u8], len: &mut usize) -> i32
    ensures copied { IfOk made (λ text. CopiesSome text result into.old into.new len.old len.new) }
    ensures no_memory { IfErr made (λ _. (result ≡ no_memory) × (into.new ≡ into.old) × (len.new ≡ len.old)) }
{
    match made {
        Ok(Some(text)) => copy(Some(text.as_str()), into, len),
        Ok(None) => copy(None, into, len),
        Err(NoMemory) => NO_MEMORY,
    }
}

/// The report as the program writes it.
#[unsafe(no_mangle)]
pub extern "C" fn beas_report_text(
    db: &mut Database,
    alloc: Global,
    into: &mut [u8],
    len: &mut usize,
) -> i32
    ensures copied { MayCopy (λ engine. option_map (report_text engine.number) engine.report)
        db.old.seat.value result into.old into.new len.old len.new }
    ensures same { db.new.seat.value ≡ db.old.seat.value }
{
    match db.take(alloc) {
        Some(held) => {
            let status = copy_made(held.engine.report_text(alloc), into, len);
            db.put(held);
            status
        }
        None => CLOSED,
    }
}

/// The number of the refusal.
#[unsafe(no_mangle)]
pub extern "C" fn beas_refusal(db: &mut Database, alloc: Global, number: &mut u32) -> i32
    ensures told { HasTold (λ engine. option_map number_of (refusal_told engine.report))
        db.old.seat.value result number.old number.new }
    ensures same { db.new.seat.value ≡ db.old.seat.value }
{
    match db.take(alloc) {
        Some(held) => {
            let status = tell(held.engine.refusal_number(), number);
            db.put(held);
            status
        }
        None => CLOSED,
    }
}

/// The text of the refusal.
#[unsafe(no_mangle)]
pub extern "C" fn beas_refusal_text(
    db: &mut Database,
    alloc: Global,
    into: &mut [u8],
    len: &mut usize,
) -> i32
    ensures copied { MayCopy (λ engine. option_map refusal_text (refusal_told engine.report))
        db.old.seat.value result into.old into.new len.old len.new }
    ensures same { db.new.seat.value ≡ db.old.seat.value }
{
    match db.take(alloc) {
        Some(held) => {
            let status = match held.engine.refusal_text(alloc) {
                Ok(Some(wording)) => copy_bytes(wording.as_slice(), into, len),
                Ok(None) => ABSENT,
                Err(NoMemory) => NO_MEMORY,
            };
            db.put(held);
            status
        }
        None => CLOSED,
    }
}

/// The number that was announced: the lower and the upper 64 bits.
#[unsafe(no_mangle)]
pub extern "C" fn beas_bound(db: &mut Database, alloc: Global, low: &mut u64, high: &mut u64) -> i32
    ensures told { HasToldWide (λ engine. bound_told engine.report)
        db.old.seat.value result (low.old, high.old) (low.new, high.new) }
    ensures same { db.new.seat.value ≡ db.old.seat.value }
{
    match db.take(alloc) {
        Some(held) => {
            let status = tell_wide(held.engine.bound(), low, high);
            db.put(held);
            status
        }
        None => CLOSED,
    }
}

/// How many tuples were read: the lower and the upper 64 bits.
#[unsafe(no_mangle)]
pub extern "C" fn beas_reads(db: &mut Database, alloc: Global, low: &mut u64, high: &mut u64) -> i32
    ensures told { HasToldWide (λ engine. reads_told engine.report)
        db.old.seat.value result (low.old, high.old) (low.new, high.new) }
    ensures same { db.new.seat.value ≡ db.old.seat.value }
{
    match db.take(alloc) {
        Some(held) => {
            let status = tell_wide(held.engine.reads(), low, high);
            db.put(held);
            status
        }
        None => CLOSED,
    }
}

/// The lines of the plan.
#[unsafe(no_mangle)]
pub extern "C" fn beas_plan_text(
    db: &mut Database,
    alloc: Global,
    into: &mut [u8],
    len: &mut usize,
) -> i32
    ensures copied { HasCopied (λ engine. plan_told engine.report)
        db.old.seat.value result into.old into.new len.old len.new }
    ensures same { db.new.seat.value ≡ db.old.seat.value }
{
    match db.take(alloc) {
        Some(held) => {
            let status = copy(held.engine.plan(), into, len);
            db.put(held);
            status
        }
        None => CLOSED,
    }
}

/// How many: rows that changed, members of the greatest group, pairs, rows of the answer, or columns.
#[unsafe(no_mangle)]
pub extern "C" fn beas_count(db: &mut Database, alloc: Global, count: &mut u64) -> i32
    ensures told { HasTold (λ engine. count_told engine.report) db.old.seat.value result count.old count.new }
    ensures same { db.new.seat.value ≡ db.old.seat.value }
{
    match db.take(alloc) {
        Some(held) => {
            let status = tell(held.engine.count(), count);
            db.put(held);
            status
        }
        None => CLOSED,
    }
}

/// The session.
#[unsafe(no_mangle)]
pub extern "C" fn beas_session(db: &mut Database, alloc: Global, session: &mut u32) -> i32
    ensures told { HasTold (λ engine. session_told engine.report)
        db.old.seat.value result session.old session.new }
    ensures same { db.new.seat.value ≡ db.old.seat.value }
{
    match db.take(alloc) {
        Some(held) => {
            let status = tell(held.engine.session(), session);
            db.put(held);
            status
        }
        None => CLOSED,
    }
}
