// A group: the tuples of one key in the order of their values, each with how many rows have it.
ghost use Rattle.std.specs.Prelude.{◌≡◌, ◌↔◌, ◌+◌, ◌<◌, ◌≤◌, ◌^◌, [], ◌∷◌, ℕ, List, length, slice_index_or, MatchResult, IsTrue, false, OnOk, OnErr, IfOk};
ghost use Rattle.std.specs.Ordering.{is_lt};
ghost use Rattle.beas_core.specs.declared.value.Value.{Value};
ghost use Rattle.beas_core.specs.Order.{row_cmp};
ghost use Rattle.beas_core.specs.Groups.{member_columns};
ghost use Rattle.beas_core.specs.Sets.{IsInOrder};
ghost use Rattle.access_index.specs.Buckets.{tuples_in, counts_in, AllCounted, IsGap, IsOneMore};
ghost use Rattle.labelled_list.specs.declared.coded.Coded.{Coded};
ghost use Rattle.indexmap.specs.IndexMap.{insert_entry};
ghost use Rattle.code_index.specs.Reading.{read, read_group, pick, AllKnown, AllCodesKnown};
ghost use Rattle.code_index.specs.Taking.{HasRoom};

use crate::codes::{compare_tuple, tuple_codes};
use crate::interner::Interner;
use crate::key::KeyCodes;
use crate::tuples::Group;
use beas_core::{Access, NoMemory};
use blocked_list::Before;
use indexmap::IndexMap;
use labelled_list::{Coded, TupleCodes};
use seeded_hash::SeededHashing;
use std::alloc::Global;
use std::cmp::Ordering;
use std::hash::Hash;

/// The place of a row's tuple by the values of its codes.
#[derive(Drop)]
struct TuplePlace<'a> {
    codes: &'a Interner,
    access: &'a Access,
    row_codes: &'a [u64],
}

impl Before<TupleCodes> for TuplePlace<'_> {
    ghost before = { λ wanted tuple. is_lt (row_cmp (read wanted.codes.now tuple)
        (read wanted.codes.now (pick (member_columns wanted.access.now) wanted.row_codes.now))) };

    fn is_before(&self, tuple: &TupleCodes) -> bool {
        compare_tuple(self.codes, tuple.as_slice(), self.access, self.row_codes) == Ordering::Less
    }
}

/// Whether all tuples of a group come before a row's, which the last one tells.
fn ends_before(codes: &Interner, group: &Group, access: &Access, row_codes: &[u64]) -> bool
    requires { IsInOrder row_cmp (tuples_in (read_group codes.now group.now)) }
    ensures { IsTrue result → IsGap (read_group codes.now group.now)
        (read codes.now (pick (member_columns access.now) row_codes.now)) (length group.now) }
{
    let len = group.len();
    if len == 0 {
        return false;
    }
    match compare_tuple(codes, group.codes(len - 1), access, row_codes) {
        Ordering::Less => true,
        _ => false,
    }
}

/// Where a tuple is by the values of its codes, or else where it goes in.
pub fn search(
    codes: &Interner,
    group: &Group,
    access: &Access,
    row_codes: &[u64],
) -> Result<usize, usize>
    requires { IsInOrder row_cmp (tuples_in (read_group codes.now group.now)) }
    ensures { MatchResult result
        (λ at. (at < length group.now) × ((d : Coded) → read codes.now (slice_index_or group.now at d).codes
        ≡ read codes.now (pick (member_columns access.now) row_codes.now)))
        (λ at. IsGap (read_group codes.now group.now)
        (read codes.now (pick (member_columns access.now) row_codes.now)) at) }
{
    let end = group.len();
    if ends_before(codes, group, access, row_codes) {
        return Err(end);
    }
    let at = group.partition_point(&TuplePlace {
        codes,
        access,
        row_codes,
    });
    if at == end {
        return Err(at);
    }
    match compare_tuple(codes, group.codes(at), access, row_codes) {
        Ordering::Equal => Ok(at),
        _ => Err(at),
    }
}

/// Whether a group has fewer members than the bound, or a row's tuple already. It takes no memory.
pub fn has_room(group: &Group, access: &Access, row_codes: &[u64]) -> bool
    ensures { HasRoom result access.now row_codes.now group.now }
{
    if group.len() < access.bound as usize {
        return true;
    }
    group.position_of(access, row_codes).is_some()
}

/// Whether a row may come into the group of its key: any row where no bound counts. It takes no memory.
pub fn may_come(bounded: bool, group: &Group, access: &Access, row_codes: &[u64]) -> bool
    ensures bound { IsTrue bounded → HasRoom result access.now row_codes.now group.now }
    ensures free { bounded ≡ false → IsTrue result }
{
    if bounded {
        return has_room(group, access, row_codes);
    }
    true
}

/// Whether a key's first row may come. It takes no memory.
pub fn may_begin(bounded: bool, access: &Access) -> bool
    ensures bound { IsTrue bounded → (IsTrue result ↔ (0 < access.now.bound)) }
    ensures free { bounded ≡ false → IsTrue result }
{
    if bounded {
        return access.bound > 0;
    }
    true
}

/// So many codes of a tuple stand in place.
const FEW: usize = 4;

/// The codes of a row's tuple. Those of a short one are read in place, without a block of memory on their way.
fn own_tuple(alloc: Global, access: &Access, row_codes: &[u64]) -> Result<TupleCodes, NoMemory>
    ensures { IfOk result (λ tuple. tuple ≡ pick (member_columns access.now) row_codes.now) }
{
    match KeyCodes::<FEW>::tuple(access, row_codes) {
        Some(tuple) => TupleCodes::of(alloc, tuple.as_slice()),
        None => tuple_codes(alloc, access, row_codes),
    }
}

/// A group that counts a tuple once.
pub fn of_one(alloc: Global, access: &Access, row_codes: &[u64]) -> Result<Group, NoMemory>
    ensures { IfOk result (λ group. group
        ≡ record { codes = pick (member_columns access.now) row_codes.now; count = 1 } ∷ []) }
{
    let tuple = own_tuple(alloc, access, row_codes)?;
    Group::of(
        alloc,
        Coded {
            codes: tuple,
            count: 1,
        },
    )
}

/// Counts a tuple once more. After an error the group is as it was.
pub fn count_up(
    alloc: Global,
    codes: &Interner,
    group: &mut Group,
    access: &Access,
    row_codes: &[u64],
) -> Result<(), NoMemory>
    requires ordered { IsInOrder row_cmp (tuples_in (read_group codes.now group.old)) }
    requires counted { AllCounted (read_group codes.now group.old) }
    requires room { counts_in (read_group codes.now group.old) + 1 < 2 ^ 32 }
    requires known { AllCodesKnown codes.now group.old }
    requires tuple { AllKnown codes.now (pick (member_columns access.now) row_codes.now) }
    ensures ok { OnOk result (IsOneMore (read_group codes.now group.old) (read_group codes.now group.new)
        (read codes.now (pick (member_columns access.now) row_codes.now))) }
    ensures known { AllCodesKnown codes.now group.new }
    ensures err { OnErr result (group.new ≡ group.old) }
{
    match search(codes, group, access, row_codes) {
        Ok(at) => {
            let count = group.count(at);
            group.recount(at, count + 1);
            Ok(())
        }
        Err(at) => {
            let tuple = own_tuple(alloc, access, row_codes)?;
            group.insert(
                alloc,
                codes.hashing(),
                at,
                Coded {
                    codes: tuple,
                    count: 1,
                },
            )
        }
    }
}

/// Counts the tuple at a place once less; it goes with its last row.
pub fn count_down(group: &mut Group, at: usize)
    requires within { at < length group.old }
    ensures less { (codes : List Value) (d : Coded) → IsInOrder row_cmp (tuples_in (read_group codes group.old))
        → AllCounted (read_group codes group.old)
        → IsOneMore (read_group codes group.new) (read_group codes group.old) (read codes (slice_index_or group.old at d).codes) }
    ensures known { (codes : List Value) → AllCodesKnown codes group.old → AllCodesKnown codes group.new }
{
    let count = group.count(at);
    if count > 1 {
        group.recount(at, count - 1);
    } else {
        group.remove(at);
    }
}

/// Puts a copy of a group under a key.
pub fn put_copy<K: Eq + Hash + Drop>(
    alloc: Global,
    groups: &mut IndexMap<K, Group, SeededHashing>,
    key: K,
    group: &Group,
) -> Result<(), NoMemory>
    ensures { OnOk result (groups.new.entries ≡ insert_entry K.eq groups.old.entries key group.now) }
{
    let copy = group.copy(alloc)?;
    groups.insert(key, copy)?;
    Ok(())
}
