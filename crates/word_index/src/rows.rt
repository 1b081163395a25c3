// Rows of values that come into and go out of an index over codes.
ghost use Rattle.std.specs.Prelude.{◌≡◌, ◌≤◌, ◌<◌, ◌+◌, ◌^◌, ◌↔◌, ◌++◌, ◌∷◌, [], List, length, map, IsTrue, IfOk, IfSome, OnOk, OnErr, MatchOption, if◌then◌else◌};
ghost use Rattle.beas_core.specs.declared.value.Value.{Value};
ghost use Rattle.beas_core.specs.Groups.{Holds, group_of};
ghost use Rattle.beas_core.specs.Shapes.{AccessIsWellFormed};
ghost use Rattle.access_index.specs.Index.{IsIndexOf};
ghost use Rattle.code_index.specs.Reading.{read, read_index, IsInOrderFor, KeepsCodes, codes_at};
ghost use Rattle.word_index.specs.Widths.{index_in};

use crate::any::AnyIndex;
use beas_core::{NoMemory, Value};
use code_index::{Interner, interned_row, known_codes, known_row};
use std::alloc::Global;

/// Most keys have no more columns than this.
const FEW: usize = 4;

/// The position and the length of the group of a key of up to `N` values, or none where it is empty. It takes no memory.
fn find_among<const N: usize>(
    codes: &Interner,
    index: &AnyIndex,
    key: &[Value],
) -> Option<(u64, u32)>
    requires in_order { IsInOrderFor codes.now (index_in index.now) }
    requires width { length key.now ≡ length (index_in index.now).access.key }
    requires few { length key.now ≤ N }
    requires small { N ≤ 64 }
    ensures len { IfSome result (λ found. found.1 ≡ length (codes_at (index_in index.now) found.0)) }
    ensures group { (rows : List (List Value)) → IsIndexOf (read_index codes.now (index_in index.now)) rows
        → MatchOption result (group_of rows (index_in index.now).access key.now ≡ [])
        (λ found. map (read codes.now) (codes_at (index_in index.now) found.0)
        ≡ group_of rows (index_in index.now).access key.now) }
    ensures stands { IfSome result (λ found. found.0 < length (index_in index.now).groups) }
{
    match known_codes::<N>(codes, key) {
        Some(key_codes) => index.find(&key_codes[..key.len()]),
        None => None,
    }
}

/// The position and the length of a key's group, or none where it is empty. It takes no memory.
pub fn find_group(codes: &Interner, index: &AnyIndex, key: &[Value]) -> Option<(u64, u32)>
    requires in_order { IsInOrderFor codes.now (index_in index.now) }
    requires width { length key.now ≡ length (index_in index.now).access.key }
    requires few { length key.now ≤ 64 }
    ensures len { IfSome result (λ found. found.1 ≡ length (codes_at (index_in index.now) found.0)) }
    ensures group { (rows : List (List Value)) → IsIndexOf (read_index codes.now (index_in index.now)) rows
        → MatchOption result (group_of rows (index_in index.now).access key.now ≡ [])
        (λ found. map (read codes.now) (codes_at (index_in index.now) found.0)
        ≡ group_of rows (index_in index.now).access key.now) }
    ensures stands { IfSome result (λ found. found.0 < length (index_in index.now).groups) }
{
    // To clear an array of 64 codes takes a quarter of the instructions of a look-up.
    if key.len() <= FEW {
        return find_among::<FEW>(codes, index, key);
    }
    find_among::<64>(codes, index, key)
}

/// Counts one row fewer, wherever among the rows it stood. It takes no memory.
pub fn remove_row(codes: &Interner, index: &mut AnyIndex, row: &[Value])
    requires in_order { IsInOrderFor codes.now (index_in index.old) }
    requires form { AccessIsWellFormed 64 (index_in index.old).access }
    ensures access { (index_in index.new).access ≡ (index_in index.old).access }
    ensures total { (index_in index.new).total ≤ (index_in index.old).total }
    ensures in_order { IsInOrderFor codes.now (index_in index.new) }
    ensures rest { (front back : List (List Value))
        → IsIndexOf (read_index codes.now (index_in index.old)) (front ++ row.now ∷ back)
        → IsIndexOf (read_index codes.now (index_in index.new)) (front ++ back) }
{
    match known_row(codes, index.access(), row) {
        Some(row_codes) => index.remove(&row_codes),
        None => {}
    }
}

/// Counts one row more, wherever among the rows it stands. Its values are interned where they weren't yet, and their codes
/// go to `row_codes`. After an error the index is as it was.
pub fn add_row(
    alloc: Global,
    codes: &mut Interner,
    index: &mut AnyIndex,
    row: &[Value],
    row_codes: &mut [u64; 64],
) -> Result<(), NoMemory>
    requires in_order { IsInOrderFor codes.old (index_in index.old) }
    requires form { AccessIsWellFormed 64 (index_in index.old).access }
    requires room { (index_in index.old).total + 1 < 2 ^ 32 }
    ensures kept { KeepsCodes codes.old codes.new }
    ensures access { (index_in index.new).access ≡ (index_in index.old).access }
    ensures total { OnOk result ((index_in index.new).total ≡ (index_in index.old).total + 1) }
    ensures in_order { IsInOrderFor codes.new (index_in index.new) }
    ensures ok { OnOk result ((front back : List (List Value))
        → IsIndexOf (read_index codes.old (index_in index.old)) (front ++ back)
        → IsIndexOf (read_index codes.new (index_in index.new)) (front ++ row.now ∷ back)) }
    ensures err { OnErr result (index_in index.new ≡ index_in index.old) }
{
    interned_row(alloc, codes, index.access(), row, row_codes)?;
    index.add(alloc, codes, &row_codes[..])
}

/// Counts one row more, wherever among the rows it stands, where the constraint, if it held, holds with this row too, and
/// else it stays the index of its rows. Its values are interned where they weren't yet, so that each is looked up once, and
/// its group too. Their codes go to `row_codes`. After an error the index is as it was.
pub fn add_if_holds(
    alloc: Global,
    codes: &mut Interner,
    index: &mut AnyIndex,
    row: &[Value],
    row_codes: &mut [u64; 64],
) -> Result<bool, NoMemory>
    requires in_order { IsInOrderFor codes.old (index_in index.old) }
    requires form { AccessIsWellFormed 64 (index_in index.old).access }
    requires room { (index_in index.old).total + 1 < 2 ^ 32 }
    ensures kept { KeepsCodes codes.old codes.new }
    ensures access { (index_in index.new).access ≡ (index_in index.old).access }
    ensures total { IfOk result (λ held. (index_in index.new).total ≡ (index_in index.old).total + (if held then 1 else 0)) }
    ensures in_order { IsInOrderFor codes.new (index_in index.new) }
    ensures index { IfOk result (λ held. (front back : List (List Value))
        → IsIndexOf (read_index codes.old (index_in index.old)) (front ++ back)
        → IsIndexOf (read_index codes.new (index_in index.new)) (if held then front ++ row.now ∷ back else front ++ back)) }
    ensures holds { IfOk result (λ held. (rows : List (List Value))
        → IsIndexOf (read_index codes.old (index_in index.old)) rows → Holds rows (index_in index.old).access
        → (IsTrue held ↔ Holds (rows ++ row.now ∷ []) (index_in index.old).access)) }
    ensures err { OnErr result (index_in index.new ≡ index_in index.old) }
{
    interned_row(alloc, codes, index.access(), row, row_codes)?;
    index.add_if_holds(alloc, codes, &row_codes[..])
}
