// The index of one access constraint.
ghost use Rattle.std.specs.Prelude.{◌≡◌, ◌+◌, ◌<◌, ◌≤◌, ◌^◌, ◌⊎◌, ◌↔◌, ◌++◌, ◌∷◌, [], ℕ, List, length, map, take, max, slice_index_or, if◌then◌else◌, IsTrue, IfOk, OnOk, OnErr};
ghost use Rattle.beas_core.specs.declared.value.Value.{Value};
ghost use Rattle.beas_core.specs.Groups.{Holds, greatest, group_of, member_columns, has_column, value_in};
ghost use Rattle.beas_core.specs.Order.{row_cmp};
ghost use Rattle.beas_core.specs.Sets.{IsInOrder};
ghost use Rattle.access_index.specs.Buckets.{tuples_in, IsBest};
ghost use Rattle.access_index.specs.Index.{IsIndexOf, WouldHold, members_at, stands_at};

use crate::bucket::{Bucket, count_down, count_up, front, group_in, of_one, search};
use crate::lending::{Lent, lend_in_order, lend_new_in_order};
use crate::start::GroupStart;
use crate::values::{Given, Picked, hash_values};
use beas_core::{Access, AccessId, ColumnId, Hits, List, NoMemory, Row, Steps, Value};
use indexmap::IndexMap;
use row_store::Rows;
use std::alloc::Global;
use std::marker::Model;
use std::sync::ledger::Ledger;

/// The index of one access constraint over some rows. Its tuples are handed out after a probe alone, so it isn't
/// `Debug`.
#[derive(Drop)]
pub struct AccessIndex {
    access: Access,
    columns: List<ColumnId>,
    total: u32,
    buckets: IndexMap<u64, Bucket>,
}

impl Model for AccessIndex {
    ghost use Rattle.std.specs.Prelude.{◌≡◌, length};
    ghost use Rattle.indexmap.specs.IndexMap.{values};
    ghost use Rattle.beas_core.specs.Groups.{member_columns};
    ghost use Rattle.access_index.specs.Buckets.{IsStored};
    ghost use Rattle.access_index.specs.Index.{Index};

    ghost Value = { Index };

    ghost view = { λ s. record { access = s.access; total = s.total; buckets = values s.buckets } };

    ghost invariant = { λ s. (s.columns ≡ member_columns s.access)
        × IsStored (length s.columns) (length s.access.key) s.buckets.entries s.total };
}

/// The columns of a constraint's tuples.
pub fn joined_columns(alloc: Global, access: &Access) -> Result<List<ColumnId>, NoMemory>
    ensures { IfOk result (λ columns. columns ≡ member_columns access.now) }
{
    let mut columns = access.key.as_slice().to_vec(alloc)?;
    columns.extend_from_slice(access.fetched.as_slice())?;
    Ok(List::from_vec(columns))
}

/// Whether two tuples begin alike.
fn begin_alike(left: &[Value], right: &[Value], width: usize) -> bool
    ensures { IsTrue result → take width left.now ≡ take width right.now }
{
    front(left, width) == front(right, width)
}

/// The size of the greatest group among the tuples up to a place and the one there, where `best` is that of
/// the tuples before it.
fn greatest_up_to(bucket: &Bucket, i: usize, width: usize, best: usize) -> usize
    requires within { i < length bucket.now }
    requires ordered { IsInOrder row_cmp (tuples_in bucket.now) }
    requires before { IsBest width bucket.now i best }
    ensures { IsBest width bucket.now (i + 1) result }
{
    let tuple = bucket.get(i).tuple.as_slice();
    if i > 0 && begin_alike(bucket.get(i - 1).tuple.as_slice(), tuple, width) {
        return best;
    }
    let group = group_in(
        bucket,
        &Given {
            values: front(tuple, width),
        },
        width,
    );
    group.len.max(best)
}

/// The size of a bucket's greatest group.
fn greatest_in(bucket: &Bucket, width: usize) -> u32
    requires ordered { IsInOrder row_cmp (tuples_in bucket.now) }
    requires few { length bucket.now < 2 ^ 32 }
    ensures { IsBest width bucket.now (length bucket.now) result }
{
    let mut best = 0;
    for i in 0..bucket.len() {
        best = greatest_up_to(bucket, i, width, best);
    }
    best as u32
}

/// A column of a tuple over these columns.
fn value_of<'a>(columns: &[ColumnId], tuple: &'a [Value], column: ColumnId) -> &'a Value
    requires width { length tuple.now ≡ length columns.now }
    requires column { IsTrue (has_column columns.now column) }
    ensures { result.now ≡ value_in columns.now tuple.now column }
{
    for (i, other) in columns.iter().enumerate() {
        if other.0 == column.0 {
            return &tuple[i];
        }
    }
    unreachable!()
}

impl AccessIndex {
    /// The index of these rows, whether or not the constraint holds over them. It reads each row once. The rows go in
    /// in the order of their tuples, so that each comes to the end of its bucket.
    pub fn build<L: Ledger>(
        alloc: Global,
        access: Access,
        rows: &Rows,
        steps: &mut Steps<L>,
    ) -> Result<AccessIndex, NoMemory>
        ensures index { IfOk result (λ index. IsIndexOf index rows.now) }
        ensures access { IfOk result (λ index. index.access ≡ access) }
        ensures cost { OnOk result (steps.new ≡ steps.old + length rows.now) }
        ensures at_most { steps.new ≤ steps.old + length rows.now }
        ensures no_fewer { steps.old ≤ steps.new }
    {
        let columns = joined_columns(alloc, &access)?;
        let lent = lend_in_order(alloc, rows, columns.as_slice(), steps)?;
        let mut index = AccessIndex {
            access,
            columns,
            total: 0,
            buckets: IndexMap::new(alloc),
        };
        index.add_all(alloc, lent.as_slice())?;
        Ok(index)
    }

    /// Counts the first rows of an index.
    fn add_all(&mut self, alloc: Global, rows: &[Lent]) -> Result<(), NoMemory>
        requires none { IsIndexOf self.old [] }
        requires few { length rows.now < 2 ^ 32 }
        ensures access { self.new.access ≡ self.old.access }
        ensures index { OnOk result (IsIndexOf self.new (map (λ lent. lent.row.now) rows.now)) }
    {
        for lent in rows {
            self.add(alloc, lent.row)?;
        }
        Ok(())
    }

    /// Recalls that an index is of fewer than 2^32 rows. The call is there for its clause and changes nothing.
    fn recall_few_rows(&self)
        ensures { self.now.total < 2 ^ 32 }
    {
        let _total = self.total;
    }

    /// The constraint. It takes no memory.
    pub fn access(&self) -> &Access
        ensures { result.now ≡ self.now.access }
    {
        &self.access
    }

    /// The size of the greatest group, 0 where there is none: one pass over the index, and no memory.
    pub fn greatest(&self) -> u32
        ensures { (rows : List (List Value)) → IsIndexOf self.now rows
            → result ≡ greatest rows self.now.access.key self.now.access.fetched }
    {
        // Each bucket has fewer than 2^32 tuples, as there are fewer rows.
        self.recall_few_rows();
        let mut best = 0;
        for i in 0..self.buckets.len() {
            best = greatest_in(&self.buckets[i], self.access.key.len()).max(best);
        }
        best
    }

    /// Whether the row's tuple is there or its group has fewer members than the bound: so whether the
    /// constraint, where it holds, would hold with this row too. It takes no memory.
    pub fn would_hold(&self, row: &Row) -> bool
        ensures exactly { IsTrue result ↔ WouldHold self.now row.now }
        ensures holds { (rows : List (List Value)) → IsIndexOf self.now rows → Holds rows self.now.access
            → (IsTrue result ↔ Holds (rows ++ row.now ∷ []) self.now.access) }
    {
        let key = Picked {
            row: row.as_slice(),
            columns: self.access.key.as_slice(),
        };
        let tuple = Picked {
            row: row.as_slice(),
            columns: self.columns.as_slice(),
        };
        match self.buckets.get(&hash_values(&key)) {
            None => self.access.bound > 0,
            Some(bucket) => {
                let group = group_in(bucket, &key, self.access.key.len());
                if group.len < self.access.bound as usize {
                    return true;
                }
                search(bucket, &tuple).is_ok()
            }
        }
    }

    /// Counts one row more, wherever among the rows it stands. After an error the index is as it was.
    pub fn add(&mut self, alloc: Global, row: &Row) -> Result<(), NoMemory>
        requires { self.old.total + 1 < 2 ^ 32 }
        ensures access { self.new.access ≡ self.old.access }
        ensures total { OnOk result (self.new.total ≡ self.old.total + 1) }
        ensures ok { OnOk result ((front back : List (List Value)) → IsIndexOf self.old (front ++ back)
            → IsIndexOf self.new (front ++ row.now ∷ back)) }
        ensures err { OnErr result (self.new ≡ self.old) }
    {
        let key = Picked {
            row: row.as_slice(),
            columns: self.access.key.as_slice(),
        };
        let tuple = Picked {
            row: row.as_slice(),
            columns: self.columns.as_slice(),
        };
        let hash = hash_values(&key);
        if let Some(bucket) = self.buckets.get_mut(&hash) {
            count_up(alloc, bucket, &tuple)?;
            self.total += 1;
            return Ok(());
        }
        let bucket = of_one(alloc, &tuple)?;
        self.buckets.insert(hash, bucket)?;
        self.total += 1;
        Ok(())
    }

    /// Counts one row fewer, wherever among the rows it stood. The tuple goes with its last row. It takes
    /// no memory.
    pub fn remove(&mut self, row: &Row)
        ensures access { self.new.access ≡ self.old.access }
        ensures rest { (front back : List (List Value)) → IsIndexOf self.old (front ++ row.now ∷ back)
            → IsIndexOf self.new (front ++ back) }
    {
        let key = Picked {
            row: row.as_slice(),
            columns: self.access.key.as_slice(),
        };
        let tuple = Picked {
            row: row.as_slice(),
            columns: self.columns.as_slice(),
        };
        let hash = hash_values(&key);
        let bucket = match self.buckets.get_mut(&hash) {
            Some(bucket) => bucket,
            None => return,
        };
        let at = match search(bucket, &tuple) {
            Ok(at) => at,
            Err(_) => return,
        };
        let rows = bucket.get(at).count as usize;
        if bucket.len().max(rows) > 1 {
            count_down(bucket, at);
            self.total -= 1;
            return;
        }
        self.buckets.swap_remove(&hash);
        self.total -= 1;
    }

    /// Counts rows that come after all others where the constraint holds with them all, and else none of them. They
    /// go in in the order of their tuples, so that each is searched close to the one before it. After an error the
    /// index counts what it counted before.
    pub fn add_rows(&mut self, alloc: Global, rows: &[Row]) -> Result<bool, NoMemory>
        requires { self.old.total + length rows.now < 2 ^ 32 }
        ensures access { self.new.access ≡ self.old.access }
        ensures index { IfOk result (λ all. (front : List (List Value)) → IsIndexOf self.old front
            → IsIndexOf self.new (if all then front ++ rows.now else front)) }
        ensures holds { IfOk result (λ all. (front : List (List Value)) → IsIndexOf self.old front
            → Holds front self.old.access → (IsTrue all ↔ Holds (front ++ rows.now) self.old.access)) }
        ensures err { OnErr result ((front : List (List Value)) → IsIndexOf self.old front
            → IsIndexOf self.new front) }
    {
        let lent = lend_new_in_order(alloc, rows, self.columns.as_slice())?;
        self.add_in_turn(alloc, lent.as_slice())
    }

    /// Counts rows that come after all others, one by one, where the constraint holds with them all, and else none of
    /// them.
    fn add_in_turn(&mut self, alloc: Global, rows: &[Lent]) -> Result<bool, NoMemory>
        requires { self.old.total + length rows.now < 2 ^ 32 }
        ensures access { self.new.access ≡ self.old.access }
        ensures index { IfOk result (λ all. (front : List (List Value)) → IsIndexOf self.old front
            → IsIndexOf self.new (if all then front ++ map (λ lent. lent.row.now) rows.now else front)) }
        ensures holds { IfOk result (λ all. (front : List (List Value)) → IsIndexOf self.old front
            → Holds front self.old.access
            → (IsTrue all ↔ Holds (front ++ map (λ lent. lent.row.now) rows.now) self.old.access)) }
        ensures err { OnErr result ((front : List (List Value)) → IsIndexOf self.old front
            → IsIndexOf self.new front) }
    {
        for (i, lent) in rows.iter().enumerate() {
            if !self.would_hold(lent.row) {
                self.remove_lent(&rows[..i]);
                return Ok(false);
            }
            if let Err(why) = self.add(alloc, lent.row) {
                self.remove_lent(&rows[..i]);
                return Err(why);
            }
        }
        Ok(true)
    }

    /// Counts rows fewer, which came after all others. It takes no memory.
    fn remove_lent(&mut self, rows: &[Lent])
        ensures access { self.new.access ≡ self.old.access }
        ensures rest { (front : List (List Value)) → IsIndexOf self.old (front ++ map (λ lent. lent.row.now) rows.now)
            → IsIndexOf self.new front }
    {
        for lent in rows {
            self.remove(lent.row);
        }
    }

    /// Counts rows fewer, which came after all others. It takes no memory.
    pub fn remove_rows(&mut self, rows: &[Row])
        ensures access { self.new.access ≡ self.old.access }
        ensures rest { (front : List (List Value)) → IsIndexOf self.old (front ++ rows.now)
            → IsIndexOf self.new front }
    {
        for row in rows {
            self.remove(row);
        }
    }

    /// The group of a key, counted: the greater of 1 and the number of its tuples. It takes no memory.
    pub fn probe<L: Ledger>(&self, key: &[Value], steps: &mut Steps<L>) -> Hits
        requires { length key.now ≡ length self.now.access.key }
        ensures access { result.access ≡ self.now.access.id }
        ensures members { (rows : List (List Value)) → IsIndexOf self.now rows
            → members_at self.now result ≡ group_of rows self.now.access key.now }
        ensures len { result.len ≡ length (members_at self.now result) }
        ensures stands { stands_at self.now result }
        ensures cost { steps.new ≡ steps.old + max 1 result.len }
    {
        self.probe_as(self.access.id, key, steps)
    }

    /// As `probe`, with hits that name another constraint: one on the same table, with the same columns, may share this
    /// index.
    pub fn probe_as<L: Ledger>(&self, id: AccessId, key: &[Value], steps: &mut Steps<L>) -> Hits
        requires { length key.now ≡ length self.now.access.key }
        ensures access { result.access ≡ id }
        ensures members { (rows : List (List Value)) → IsIndexOf self.now rows
            → members_at self.now result ≡ group_of rows self.now.access key.now }
        ensures len { result.len ≡ length (members_at self.now result) }
        ensures stands { stands_at self.now result }
        ensures cost { steps.new ≡ steps.old + max 1 result.len }
    {
        // The bucket and the position in it each fit 32 bits, as there are fewer than 2^32 rows.
        self.recall_few_rows();
        let wanted = Given { values: key };
        let index = match self.buckets.get_index_of(&hash_values(&wanted)) {
            Some(index) => index,
            None => return Hits::counted(id, 0, 0, steps),
        };
        let group = group_in(&self.buckets[index], &wanted, self.access.key.len());
        let start = GroupStart {
            bucket: index as u32,
            from: group.from as u32,
        };
        Hits::counted(id, start.pack(), group.len as u32, steps)
    }

    /// A column of a tuple that a probe found and counted, while the index is as it was. It takes no memory.
    pub fn value(&self, hits: &Hits, i: u32, column: ColumnId) -> &Value
        requires stands { stands_at self.now hits.now }
        requires member { i < hits.now.len }
        requires column { IsTrue (has_column (member_columns self.now.access) column) }
        ensures { result.now
            ≡ value_in (member_columns self.now.access) (slice_index_or (members_at self.now hits.now) i []) column }
    {
        let start = GroupStart::unpack(hits.place());
        let bucket = &self.buckets[start.bucket as usize];
        let at = start.from as usize + i as usize;
        value_of(
            self.columns.as_slice(),
            bucket.get(at).tuple.as_slice(),
            column,
        )
    }
}
