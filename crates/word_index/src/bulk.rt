// Many rows of values that come into and go out of an index over codes.
ghost use Rattle.std.specs.Prelude.{◌≡◌, ◌≤◌, ◌<◌, ◌+◌, ◌^◌, ◌↔◌, ◌++◌, [], List, length, map, IsTrue, IfOk, OnOk, OnErr, if◌then◌else◌};
ghost use Rattle.std.specs.List.Sorted.{IsPermutation};
ghost use Rattle.beas_core.specs.declared.value.Value.{Value};
ghost use Rattle.beas_core.specs.Groups.{Holds};
ghost use Rattle.beas_core.specs.Shapes.{AccessIsWellFormed};
ghost use Rattle.access_index.specs.Index.{IsIndexOf};
ghost use Rattle.code_index.specs.Codes.{AreDistinct};
ghost use Rattle.code_index.specs.Reading.{read_index, IsInOrderFor, KeepsCodes};
ghost use Rattle.word_index.specs.Widths.{index_in};

use crate::any::AnyIndex;
use crate::rows::{add_if_holds, add_row, remove_row};
use access_index::{Lent, joined_columns, lend_in_order, lend_new_in_order};
use beas_core::{Access, NoMemory, Row, Steps};
use code_index::Interner;
use row_store::Rows;
use std::alloc::Global;
use std::sync::ledger::Ledger;

/// Counts rows fewer, which came after all others, from the last to the first. It takes no memory.
pub fn remove_rows(codes: &Interner, index: &mut AnyIndex, rows: &[Row])
    requires in_order { IsInOrderFor codes.now (index_in index.old) }
    requires form { AccessIsWellFormed 64 (index_in index.old).access }
    ensures access { (index_in index.new).access ≡ (index_in index.old).access }
    ensures total { (index_in index.new).total ≤ (index_in index.old).total }
    ensures in_order { IsInOrderFor codes.now (index_in index.new) }
    ensures rest { (front : List (List Value))
        → IsIndexOf (read_index codes.now (index_in index.old)) (front ++ rows.now)
        → IsIndexOf (read_index codes.now (index_in index.new)) front }
{
    let len = rows.len();
    for i in 0..len {
        remove_row(codes, index, rows[len - 1 - i].as_slice());
    }
}

/// Counts rows fewer, which came after all others, from the last to the first. It takes no memory.
fn remove_lent(codes: &Interner, index: &mut AnyIndex, rows: &[Lent])
    requires in_order { IsInOrderFor codes.now (index_in index.old) }
    requires form { AccessIsWellFormed 64 (index_in index.old).access }
    ensures access { (index_in index.new).access ≡ (index_in index.old).access }
    ensures total { (index_in index.new).total ≤ (index_in index.old).total }
    ensures in_order { IsInOrderFor codes.now (index_in index.new) }
    ensures rest { (front : List (List Value))
        → IsIndexOf (read_index codes.now (index_in index.old)) (front ++ map (λ lent. lent.row.now) rows.now)
        → IsIndexOf (read_index codes.now (index_in index.new)) front }
{
    let len = rows.len();
    for i in 0..len {
        remove_row(codes, index, rows[len - 1 - i].row.as_slice());
    }
}

/// Counts rows that come after all others, one by one, where the constraint holds with them all, and else none of them.
fn add_in_turn(
    alloc: Global,
    codes: &mut Interner,
    index: &mut AnyIndex,
    rows: &[Lent],
) -> Result<bool, NoMemory>
    requires in_order { IsInOrderFor codes.old (index_in index.old) }
    requires form { AccessIsWellFormed 64 (index_in index.old).access }
    requires room { (index_in index.old).total + length rows.now < 2 ^ 32 }
    ensures kept { KeepsCodes codes.old codes.new }
    ensures access { (index_in index.new).access ≡ (index_in index.old).access }
    ensures total { (index_in index.new).total ≤ (index_in index.old).total + length rows.now }
    ensures in_order { IsInOrderFor codes.new (index_in index.new) }
    ensures index { IfOk result (λ all. (front : List (List Value))
        → IsIndexOf (read_index codes.old (index_in index.old)) front
        → IsIndexOf (read_index codes.new (index_in index.new)) (if all then front ++ map (λ lent. lent.row.now) rows.now else front)) }
    ensures holds { IfOk result (λ all. (front : List (List Value))
        → IsIndexOf (read_index codes.old (index_in index.old)) front → Holds front (index_in index.old).access
        → (IsTrue all ↔ Holds (front ++ map (λ lent. lent.row.now) rows.now) (index_in index.old).access)) }
    ensures err { OnErr result ((front : List (List Value))
        → IsIndexOf (read_index codes.old (index_in index.old)) front
        → IsIndexOf (read_index codes.new (index_in index.new)) front) }
{
    // One array serves all rows: to clear and copy one for each would cost a part of the row.
    let mut row_codes = [0; 64];
    for (i, lent) in rows.iter().enumerate() {
        match add_if_holds(alloc, codes, index, lent.row.as_slice(), &mut row_codes) {
            Ok(held) => {
                if !held {
                    remove_lent(codes, index, &rows[..i]);
                    return Ok(false);
                }
            }
            Err(why) => {
                remove_lent(codes, index, &rows[..i]);
                return Err(why);
            }
        }
    }
    Ok(true)
}

/// Counts rows that come after all others where the constraint holds with them all, and else none of them. They go in in
/// the order of their tuples, so that each comes close to the one before it.
pub fn add_rows(
    alloc: Global,
    codes: &mut Interner,
    index: &mut AnyIndex,
    rows: &[Row],
) -> Result<bool, NoMemory>
    requires in_order { IsInOrderFor codes.old (index_in index.old) }
    requires form { AccessIsWellFormed 64 (index_in index.old).access }
    requires room { (index_in index.old).total + length rows.now < 2 ^ 32 }
    ensures kept { KeepsCodes codes.old codes.new }
    ensures access { (index_in index.new).access ≡ (index_in index.old).access }
    ensures total { (index_in index.new).total ≤ (index_in index.old).total + length rows.now }
    ensures in_order { IsInOrderFor codes.new (index_in index.new) }
    ensures index { IfOk result (λ all. (front : List (List Value))
        → IsIndexOf (read_index codes.old (index_in index.old)) front
        → IsIndexOf (read_index codes.new (index_in index.new)) (if all then front ++ rows.now else front)) }
    ensures holds { IfOk result (λ all. (front : List (List Value))
        → IsIndexOf (read_index codes.old (index_in index.old)) front → Holds front (index_in index.old).access
        → (IsTrue all ↔ Holds (front ++ rows.now) (index_in index.old).access)) }
    ensures err { OnErr result ((front : List (List Value))
        → IsIndexOf (read_index codes.old (index_in index.old)) front
        → IsIndexOf (read_index codes.new (index_in index.new)) front) }
{
    let columns = joined_columns(alloc, index.access())?;
    let lent = lend_new_in_order(alloc, rows, columns.as_slice())?;
    add_in_turn(alloc, codes, index, lent.as_slice())
}

/// Counts the first rows of an index.
fn add_all(
    alloc: Global,
    codes: &mut Interner,
    index: &mut AnyIndex,
    rows: &[Lent],
) -> Result<(), NoMemory>
    requires in_order { IsInOrderFor codes.old (index_in index.old) }
    requires form { AccessIsWellFormed 64 (index_in index.old).access }
    requires none { IsIndexOf (read_index codes.old (index_in index.old)) [] }
    requires total { (index_in index.old).total ≡ 0 }
    requires few { length rows.now < 2 ^ 32 }
    ensures kept { KeepsCodes codes.old codes.new }
    ensures access { (index_in index.new).access ≡ (index_in index.old).access }
    ensures total { OnOk result ((index_in index.new).total ≡ length rows.now) }
    ensures in_order { IsInOrderFor codes.new (index_in index.new) }
    ensures index { OnOk result (IsIndexOf (read_index codes.new (index_in index.new)) (map (λ lent. lent.row.now) rows.now)) }
{
    let mut row_codes = [0; 64];
    for lent in rows {
        add_row(alloc, codes, index, lent.row.as_slice(), &mut row_codes)?;
    }
    Ok(())
}

/// All rows, lent in the order of a constraint's tuples. It reads each row once.
fn lend_for<'a, L: Ledger>(
    alloc: Global,
    access: &Access,
    rows: &'a Rows,
    steps: &mut Steps<L>,
) -> Result<Vec<Lent<'a>>, NoMemory>
    ensures rows { IfOk result (λ lent. IsPermutation (map (λ one. one.row.now) lent.items) rows.now) }
    ensures few { IfOk result (λ lent. length lent.items < 2 ^ 32) }
    ensures cost { OnOk result (steps.new ≡ steps.old + length rows.now) }
    ensures at_most { steps.new ≤ steps.old + length rows.now }
    ensures no_fewer { steps.old ≤ steps.new }
{
    let columns = joined_columns(alloc, access)?;
    lend_in_order(alloc, rows, columns.as_slice(), steps)
}

/// The index of lent rows for a constraint, whether or not it holds over them. After an error it is let go by a call, whose
/// proof is far shorter than that of a drop at the end of a scope.
fn index_over(
    alloc: Global,
    codes: &mut Interner,
    access: Access,
    rows: &[Lent],
) -> Result<AnyIndex, NoMemory>
    requires distinct { AreDistinct codes.old }
    requires form { AccessIsWellFormed 64 access }
    requires few { length rows.now < 2 ^ 32 }
    ensures kept { KeepsCodes codes.old codes.new }
    ensures access { IfOk result (λ index. (index_in index).access ≡ access) }
    ensures total { IfOk result (λ index. (index_in index).total ≡ length rows.now) }
    ensures in_order { IfOk result (λ index. IsInOrderFor codes.new (index_in index)) }
    ensures index { IfOk result (λ index. IsIndexOf (read_index codes.new (index_in index)) (map (λ lent. lent.row.now) rows.now)) }
{
    let mut index = AnyIndex::new(alloc, access, codes.hashing());
    match add_all(alloc, codes, &mut index, rows) {
        Ok(()) => Ok(index),
        Err(why) => {
            drop(index);
            Err(why)
        }
    }
}

/// The index of these rows for a constraint, whether or not it holds over them. It reads each row once. The rows
/// go in in the order of their tuples, so that each comes to the end of its group.
pub fn index_of<L: Ledger>(
    alloc: Global,
    codes: &mut Interner,
    access: Access,
    rows: &Rows,
    steps: &mut Steps<L>,
) -> Result<AnyIndex, NoMemory>
    requires distinct { AreDistinct codes.old }
    requires form { AccessIsWellFormed 64 access }
    ensures kept { KeepsCodes codes.old codes.new }
    ensures access { IfOk result (λ index. (index_in index).access ≡ access) }
    ensures total { IfOk result (λ index. (index_in index).total ≡ length rows.now) }
    ensures in_order { IfOk result (λ index. IsInOrderFor codes.new (index_in index)) }
    ensures index { IfOk result (λ index. IsIndexOf (read_index codes.new (index_in index)) rows.now) }
    ensures cost { OnOk result (steps.new ≡ steps.old + length rows.now) }
    ensures at_most { steps.new ≤ steps.old + length rows.now }
    ensures no_fewer { steps.old ≤ steps.new }
{
    let lent = lend_for(alloc, &access, rows, steps)?;
    index_over(alloc, codes, access, lent.as_slice())
}
