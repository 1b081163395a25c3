// A bucket: the tallies of all groups whose keys have one hash, in the order of their tuples.
ghost use Rattle.std.specs.Prelude.{◌≡◌, ◌+◌, ◌<◌, ◌≤◌, ◌^◌, [], length, take, drop, filter, slice_index_or, MatchResult, OnOk, OnErr, IfOk};
ghost use Rattle.beas_core.specs.declared.value.Value.{Value};
ghost use Rattle.beas_core.specs.Order.{row_cmp};
ghost use Rattle.beas_core.specs.Sets.{IsInOrder};
ghost use Rattle.beas_core.specs.Groups.{same_row, project};
ghost use Rattle.std.specs.Ordering.{is_lt, is_le};
ghost use Rattle.access_index.specs.declared.tally.Tally.{Tally};
ghost use Rattle.access_index.specs.Buckets.{tuples_in, count_in, counts_in, one_if, AllCounted, key_order, is_key, IsGap, IsOneMore};

use crate::tally::Tally;
use crate::values::{Picked, Values, compare_values};
use beas_core::{Duplicate, List, NoMemory, Row, Value};
use blocked_list::{Before, BlockedList};
use std::alloc::Global;
use std::cmp::Ordering;

pub type Bucket = BlockedList<Tally>;

/// Neighbours in a bucket: `len` of them, from `from` on.
#[derive(Clone, Copy, Debug)]
pub struct Stretch {
    pub from: usize,
    pub len: usize,
}

/// The first values of a row, all of them where there are fewer.
pub fn front(row: &[Value], width: usize) -> &[Value]
    ensures { result.now ≡ take width row.now }
{
    if row.len() < width {
        row
    } else {
        &row[..width]
    }
}

/// The place before all tuples that begin with a key or with a greater one.
#[derive(Drop)]
struct KeyStart<'a, W> {
    key: &'a W,
    width: usize,
}

impl<W: Values> Before<Tally> for KeyStart<'_, W> {
    ghost before = { λ wanted tally. is_lt (key_order wanted.width (W.list wanted.key.now) tally) };

    fn is_before(&self, tally: &Tally) -> bool {
        compare_values(front(tally.tuple.as_slice(), self.width), self.key) == Ordering::Less
    }
}

/// The place after all tuples that begin with a key or with a smaller one.
#[derive(Drop)]
struct KeyEnd<'a, W> {
    key: &'a W,
    width: usize,
}

impl<W: Values> Before<Tally> for KeyEnd<'_, W> {
    ghost before = { λ wanted tally. is_le (key_order wanted.width (W.list wanted.key.now) tally) };

    fn is_before(&self, tally: &Tally) -> bool {
        compare_values(front(tally.tuple.as_slice(), self.width), self.key) != Ordering::Greater
    }
}

/// The place of a tuple.
#[derive(Drop)]
struct TuplePlace<'a, W> {
    tuple: &'a W,
}

impl<W: Values> Before<Tally> for TuplePlace<'_, W> {
    ghost before = { λ wanted tally. is_lt (row_cmp tally.tuple (W.list wanted.tuple.now)) };

    fn is_before(&self, tally: &Tally) -> bool {
        compare_values(tally.tuple.as_slice(), self.tuple) == Ordering::Less
    }
}

/// The tuples of a bucket that begin with a key.
pub fn group_in<W: Values>(bucket: &Bucket, key: &W, width: usize) -> Stretch
    requires { IsInOrder row_cmp (tuples_in bucket.now) }
    ensures within { result.from + result.len ≤ length bucket.now }
    ensures members { take result.len (drop result.from bucket.now)
        ≡ filter (is_key width (W.list key.now)) bucket.now }
{
    let from = bucket.partition_point(&KeyStart { key, width });
    let end = bucket.partition_point(&KeyEnd { key, width });
    Stretch {
        from,
        len: end - from,
    }
}

/// Where a tuple is, or else where it goes in.
pub fn search<W: Values>(bucket: &Bucket, tuple: &W) -> Result<usize, usize>
    requires { IsInOrder row_cmp (tuples_in bucket.now) }
    ensures { MatchResult result
        (λ at. (at < length bucket.now) × ((d : Tally) → (slice_index_or bucket.now at d).tuple ≡ W.list tuple.now))
        (λ at. IsGap bucket.now (W.list tuple.now) at) }
{
    let at = bucket.partition_point(&TuplePlace { tuple });
    if at == bucket.len() {
        return Err(at);
    }
    match compare_values(bucket.get(at).tuple.as_slice(), tuple) {
        Ordering::Equal => Ok(at),
        _ => Err(at),
    }
}

/// The values that columns pick from a row, as a row.
fn copy_of(alloc: Global, tuple: &Picked) -> Result<Row, NoMemory>
    ensures { IfOk result (λ copy. copy ≡ project tuple.now.columns.now tuple.now.row.now) }
{
    let mut copy = Vec::with_capacity(alloc, tuple.len())?;
    for i in 0..tuple.len() {
        let value = match tuple.at(i) {
            Some(value) => value.copy(alloc)?,
            None => Value::Int(0),
        };
        copy.push(value)?;
    }
    Ok(List::from_vec(copy))
}

/// A bucket that counts a tuple once.
pub fn of_one(alloc: Global, tuple: &Picked) -> Result<Bucket, NoMemory>
    ensures { IfOk result (λ bucket. IsOneMore [] bucket (project tuple.now.columns.now tuple.now.row.now)) }
{
    let tuple = copy_of(alloc, tuple)?;
    let mut bucket = BlockedList::new(alloc);
    bucket.insert(alloc, 0, Tally { tuple, count: 1 })?;
    Ok(bucket)
}

/// Counts a tuple once more. After an error the bucket is as it was.
pub fn count_up(alloc: Global, bucket: &mut Bucket, tuple: &Picked) -> Result<(), NoMemory>
    requires ordered { IsInOrder row_cmp (tuples_in bucket.old) }
    requires counted { AllCounted bucket.old }
    requires room { counts_in bucket.old + 1 < 2 ^ 32 }
    ensures ok { OnOk result (IsOneMore bucket.old bucket.new (project tuple.now.columns.now tuple.now.row.now)) }
    ensures err { OnErr result (bucket.new ≡ bucket.old) }
{
    match search(bucket, tuple) {
        Ok(at) => {
            let count = bucket.get(at).count;
            bucket.recount(at, count + 1);
            Ok(())
        }
        Err(at) => {
            let tuple = copy_of(alloc, tuple)?;
            bucket.insert(alloc, at, Tally { tuple, count: 1 })
        }
    }
}

/// Counts the tuple at a place once less; it goes with its last row.
pub fn count_down(bucket: &mut Bucket, at: usize)
    requires within { at < length bucket.old }
    requires ordered { IsInOrder row_cmp (tuples_in bucket.old) }
    requires counted { AllCounted bucket.old }
    ensures { (d : Tally) → IsOneMore bucket.new bucket.old (slice_index_or bucket.old at d).tuple }
{
    let count = bucket.get(at).count;
    if count > 1 {
        bucket.recount(at, count - 1);
    } else {
        bucket.remove(at);
    }
}
