// The calls that tell whole columns of an answer, from a row on.
ghost use Rattle.std.specs.Prelude.{◌≡◌};
ghost use Rattle.beas_library.specs.Told.{count_in, integer_in};
ghost use Rattle.beas_c.specs.Columns.{HasRead, HasReadSums, HasReadTexts, ReadsTexts, read_status};

use crate::database::Database;
use crate::held::Held;
use crate::status::{ABSENT, CLOSED, DONE, NO_MEMORY};
use crate::telling::copy;
use beas_core::NoMemory;
use std::alloc::Global;

/// Whether all of the cells were read, as a status.
fn read(all: bool) -> i32
    ensures { result ≡ read_status all }
{
    if all { DONE } else { ABSENT }
}

/// Integers, as many as there is room for.
#[unsafe(no_mangle)]
pub extern "C" fn beas_column_integers(
    db: &mut Database,
    alloc: Global,
    column: u64,
    first: u64,
    into: &mut [i64],
) -> i32
    ensures read { HasRead integer_in column first db.old.seat.value result into.old into.new }
    ensures same { db.new.seat.value ≡ db.old.seat.value }
{
    match db.take(alloc) {
        Some(held) => {
            let all = held.engine.integers(column as usize, first as usize, into);
            db.put(held);
            read(all)
        }
        None => CLOSED,
    }
}

/// Counts of groups, as many as there is room for.
#[unsafe(no_mangle)]
pub extern "C" fn beas_column_counts(
    db: &mut Database,
    alloc: Global,
    column: u64,
    first: u64,
    into: &mut [u64],
) -> i32
    ensures read { HasRead count_in column first db.old.seat.value result into.old into.new }
    ensures same { db.new.seat.value ≡ db.old.seat.value }
{
    match db.take(alloc) {
        Some(held) => {
            let all = held.engine.counts(column as usize, first as usize, into);
            db.put(held);
            read(all)
        }
        None => CLOSED,
    }
}

/// Sums of groups: the lower and the upper 64 bits of each.
#[unsafe(no_mangle)]
pub extern "C" fn beas_column_sums(
    db: &mut Database,
    alloc: Global,
    column: u64,
    first: u64,
    lows: &mut [u64],
    highs: &mut [i64],
) -> i32
    ensures read { HasReadSums column first db.old.seat.value result lows.old lows.new highs.old highs.new }
    ensures same { db.new.seat.value ≡ db.old.seat.value }
{
    match db.take(alloc) {
        Some(held) => {
            let lower = held.engine.lows(column as usize, first as usize, lows);
            let upper = held.engine.highs(column as usize, first as usize, highs);
            db.put(held);
            read(lower && upper)
        }
        None => CLOSED,
    }
}

/// The bytes of texts, one after another, and where each ends.
#[unsafe(no_mangle)]
pub extern "C" fn beas_column_texts(
    db: &mut Database,
    alloc: Global,
    column: u64,
    first: u64,
    ends: &mut [u64],
    into: &mut [u8],
    len: &mut usize,
) -> i32
    ensures read { HasReadTexts column first db.old.seat.value result
        ends.old ends.new into.old into.new len.old len.new }
    ensures same { db.new.seat.value ≡ db.old.seat.value }
{
    match db.take(alloc) {
        Some(held) => {
            let status = copy_texts(
                &held,
                alloc,
                column as usize,
                first as usize,
                ends,
                into,
                len,
            );
            db.put(held);
            status
        }
        None => CLOSED,
    }
}

/// Copies the texts, if memory and `into` have room for them.
fn copy_texts(
    held: &Held,
    alloc: Global,
    column: usize,
    first: usize,
    ends: &mut [u64],
    into: &mut [u8],
    len: &mut usize,
) -> i32
    ensures { ReadsTexts column first held.now result ends.old ends.new into.old into.new len.old len.new }
{
    match held.engine.texts(alloc, column, first, ends) {
        Ok(Some(all)) => copy(Some(all.as_str()), into, len),
        Ok(None) => ABSENT,
        Err(NoMemory) => NO_MEMORY,
    }
}
