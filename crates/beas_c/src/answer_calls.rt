// The calls that tell of an answer. Columns and rows are counted from 0.
ghost use Rattle.std.specs.Prelude.{◌≡◌, length, option_and_then, option_map};
ghost use Rattle.beas_library.specs.Told.{cell_told, count_in, integer_in, name_told, names_told, sum_in, text_in};
ghost use Rattle.beas_c.specs.Telling.{HasCopied, HasTold, HasToldSum, type_of};

use crate::cells::{count_in, integer_in, sum_in, text_in, type_of};
use crate::database::Database;
use crate::status::CLOSED;
use crate::telling::{copy, tell, tell_sum};
use std::alloc::Global;

/// How many columns an answer has.
#[unsafe(no_mangle)]
pub extern "C" fn beas_columns(db: &mut Database, alloc: Global, count: &mut u64) -> i32
    ensures told { HasTold (λ engine. option_map length (names_told engine.report))
        db.old.seat.value result count.old count.new }
    ensures same { db.new.seat.value ≡ db.old.seat.value }
{
    match db.take(alloc) {
        Some(held) => {
            let status = tell(held.engine.columns(), count);
            db.put(held);
            status
        }
        None => CLOSED,
    }
}

/// The name of a column.
#[unsafe(no_mangle)]
pub extern "C" fn beas_column_name(
    db: &mut Database,
    alloc: Global,
    column: u64,
    into: &mut [u8],
    len: &mut usize,
) -> i32
    ensures copied { HasCopied (λ engine. name_told engine.report column)
        db.old.seat.value result into.old into.new len.old len.new }
    ensures same { db.new.seat.value ≡ db.old.seat.value }
{
    match db.take(alloc) {
        Some(held) => {
            let status = copy(held.engine.column_name(column as usize), into, len);
            db.put(held);
            status
        }
        None => CLOSED,
    }
}

/// The type of a column. An answer without rows tells none.
#[unsafe(no_mangle)]
pub extern "C" fn beas_column_type(
    db: &mut Database,
    alloc: Global,
    column: u64,
    kind: &mut i32,
) -> i32
    ensures told { HasTold (λ engine. option_map type_of (cell_told engine.report 0 column))
        db.old.seat.value result kind.old kind.new }
    ensures same { db.new.seat.value ≡ db.old.seat.value }
{
    match db.take(alloc) {
        Some(held) => {
            let status = tell(type_of(held.engine.cell(0, column as usize)), kind);
            db.put(held);
            status
        }
        None => CLOSED,
    }
}

/// An integer.
#[unsafe(no_mangle)]
pub extern "C" fn beas_cell_integer(
    db: &mut Database,
    alloc: Global,
    row: u64,
    column: u64,
    value: &mut i64,
) -> i32
    ensures told { HasTold (λ engine. option_and_then integer_in (cell_told engine.report row column))
        db.old.seat.value result value.old value.new }
    ensures same { db.new.seat.value ≡ db.old.seat.value }
{
    match db.take(alloc) {
        Some(held) => {
            let status = tell(
                integer_in(held.engine.cell(row as usize, column as usize)),
                value,
            );
            db.put(held);
            status
        }
        None => CLOSED,
    }
}

/// The bytes of a text.
#[unsafe(no_mangle)]
pub extern "C" fn beas_cell_text(
    db: &mut Database,
    alloc: Global,
    row: u64,
    column: u64,
    into: &mut [u8],
    len: &mut usize,
) -> i32
    ensures copied { HasCopied (λ engine. option_and_then text_in (cell_told engine.report row column))
        db.old.seat.value result into.old into.new len.old len.new }
    ensures same { db.new.seat.value ≡ db.old.seat.value }
{
    match db.take(alloc) {
        Some(held) => {
            let status = copy(
                text_in(held.engine.cell(row as usize, column as usize)),
                into,
                len,
            );
            db.put(held);
            status
        }
        None => CLOSED,
    }
}

/// A count of a group.
#[unsafe(no_mangle)]
pub extern "C" fn beas_cell_count(
    db: &mut Database,
    alloc: Global,
    row: u64,
    column: u64,
    value: &mut u64,
) -> i32
    ensures told { HasTold (λ engine. option_and_then count_in (cell_told engine.report row column))
        db.old.seat.value result value.old value.new }
    ensures same { db.new.seat.value ≡ db.old.seat.value }
{
    match db.take(alloc) {
        Some(held) => {
            let status = tell(
                count_in(held.engine.cell(row as usize, column as usize)),
                value,
            );
            db.put(held);
            status
        }
        None => CLOSED,
    }
}

/// A sum of a group: the lower and the upper 64 bits.
#[unsafe(no_mangle)]
pub extern "C" fn beas_cell_sum(
    db: &mut Database,
    alloc: Global,
    row: u64,
    column: u64,
    low: &mut u64,
    high: &mut i64,
) -> i32
    ensures told { HasToldSum (λ engine. option_and_then sum_in (cell_told engine.report row column))
        db.old.seat.value result (low.old, high.old) (low.new, high.new) }
    ensures same { db.new.seat.value ≡ db.old.seat.value }
{
    match db.take(alloc) {
        Some(held) => {
            let status = tell_sum(
                sum_in(held.engine.cell(row as usize, column as usize)),
                low,
                high,
            );
            db.put(held);
            status
        }
        None => CLOSED,
    }
}
