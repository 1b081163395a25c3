// The tuples of one key, whatever their number.
ghost use Rattle.std.specs.Prelude.{◌≡◌, ◌≢◌, ◌+◌, ◌<◌, ◌≤◌, ◌^◌, ◌∷◌, [], List, length, filter, insert, remove, slice_index_or, slice_set, MatchOption, IfOk, OnOk, OnErr};
ghost use Rattle.std.specs.List.{AllByRecursion};
ghost use Rattle.std.specs.List.Sorted.{IsPartitionedBy};
ghost use Rattle.beas_core.specs.Groups.{member_columns};
ghost use Rattle.labelled_list.specs.Labels.{AreDistinct};
ghost use Rattle.labelled_list.specs.declared.coded.Coded.{Coded};
ghost use Rattle.code_index.specs.Forms.{tuples_of};
ghost use Rattle.code_index.specs.Reading.{pick};

use crate::codes::is_tuple;
use crate::form::Form;
use crate::key::KeyCodes;
use beas_core::{Access, Duplicate, NoMemory};
use blocked_list::{Before, BlockedList};
use labelled_list::{Coded, LabelledList, TupleCodes};
use seeded_hash::SeededHashing;
use std::alloc::Global;
use std::marker::Model;

/// A short group has as many tuples at most.
const SHORT: usize = 512;

/// A tuple has mostly as many codes at most, since a table has 64 columns.
const FEW: usize = 64;

/// No tuple has more codes: 64 of a key, and 64 of fetched columns.
const MANY: usize = 128;

/// The tuples of one key in an order that only the writer knows, each with how many rows have it.
#[derive(Drop)]
pub struct Group {
    form: Form,
}

impl Model for Group {
    ghost use Rattle.std.specs.Prelude.{List};
    ghost use Rattle.labelled_list.specs.declared.coded.Coded.{Coded};
    ghost use Rattle.code_index.specs.Forms.{tuples_of};

    ghost Value = { List Coded };

    ghost view = { λ s. tuples_of s.form };
}

/// A group has this one field and no other, so each tuple once: with a further field this would not compile.
fn group_fields(group: &Group) {
    let Group { form: _form } = group;
}

/// The place of a tuple by the place of its codes.
#[derive(Drop)]
struct CodedPlace<'a, B> {
    wanted: &'a B,
}

impl<B: Before<TupleCodes>> Before<Coded> for CodedPlace<'_, B> {
    ghost before = { λ place coded. B.before place.wanted.now coded.codes };

    fn is_before(&self, coded: &Coded) -> bool {
        self.wanted.is_before(&coded.codes)
    }
}

impl Group {
    /// A group of one tuple.
    pub fn of(alloc: Global, tuple: Coded) -> Result<Group, NoMemory>
        ensures { IfOk result (λ group. group ≡ tuple ∷ []) }
    {
        let mut tuples = BlockedList::new(alloc);
        tuples.insert(alloc, 0, tuple)?;
        Ok(Group {
            form: Form::Short(tuples),
        })
    }

    /// How many tuples there are. It takes no memory.
    pub fn len(&self) -> usize
        ensures { result ≡ length self.now }
    {
        match &self.form {
            Form::Short(tuples) => tuples.len(),
            Form::Labelled(tuples) => tuples.len(),
        }
    }

    /// The codes of the tuple at a place. It takes no memory.
    // Each value that a plan reads of a tuple is found through this, and a call is a quarter of that.
    #[inline(always)]
    pub fn codes(&self, at: usize) -> &[u64]
        requires { at < length self.now }
        ensures { (d : Coded) → result.now ≡ (slice_index_or self.now at d).codes }
    {
        match &self.form {
            Form::Short(tuples) => tuples.get(at).codes.as_slice(),
            Form::Labelled(tuples) => tuples.codes(at),
        }
    }

    /// How many rows have the tuple at a place. It takes no memory.
    pub fn count(&self, at: usize) -> u32
        requires { at < length self.now }
        ensures { (d : Coded) → result ≡ (slice_index_or self.now at d).count }
    {
        match &self.form {
            Form::Short(tuples) => tuples.get(at).count,
            Form::Labelled(tuples) => tuples.count(at),
        }
    }

    /// How many tuples stand before a place, where they are the first ones. It takes no memory.
    pub fn partition_point<B: Before<TupleCodes>>(&self, wanted: &B) -> usize
        requires { IsPartitionedBy (λ (tuple : Coded). B.before wanted.now tuple.codes) self.now }
        ensures { result ≡ length (filter (λ (tuple : Coded). B.before wanted.now tuple.codes) self.now) }
    {
        match &self.form {
            Form::Short(tuples) => tuples.partition_point(&CodedPlace { wanted }),
            Form::Labelled(tuples) => tuples.partition_point(wanted),
        }
    }

    /// Where a row's tuple is, by a look at each.
    fn scan(&self, access: &Access, row_codes: &[u64]) -> Option<usize>
        ensures { MatchOption result
            (AllByRecursion (λ (tuple : Coded). tuple.codes ≢ pick (member_columns access.now) row_codes.now) self.now)
            (λ at. (at < length self.now)
            × ((d : Coded) → (slice_index_or self.now at d).codes ≡ pick (member_columns access.now) row_codes.now)) }
    {
        for i in 0..self.len() {
            if is_tuple(self.codes(i), access, row_codes) {
                return Some(i);
            }
        }
        None
    }

    /// Where a row's tuple of more than `FEW` codes is, as where a key and the fetched columns overlap. Of a table's 64
    /// columns a constraint has each at most once in its key and once among those that it fetches.
    #[inline(never)]
    fn wide_position_of(&self, access: &Access, row_codes: &[u64]) -> Option<usize>
        ensures { MatchOption result
            (AllByRecursion (λ (tuple : Coded). tuple.codes ≢ pick (member_columns access.now) row_codes.now) self.now)
            (λ at. (at < length self.now)
            × ((d : Coded) → (slice_index_or self.now at d).codes ≡ pick (member_columns access.now) row_codes.now)) }
    {
        match &self.form {
            Form::Short(_) => self.scan(access, row_codes),
            Form::Labelled(tuples) => match KeyCodes::<MANY>::tuple(access, row_codes) {
                Some(tuple) => tuples.position_of(tuple.as_slice()),
                None => self.scan(access, row_codes),
            },
        }
    }

    /// Where a row's tuple is by its codes alone: in a short group by a look at each tuple's codes, in a long one by its
    /// label. It takes no memory.
    pub fn position_of(&self, access: &Access, row_codes: &[u64]) -> Option<usize>
        ensures { MatchOption result
            (AllByRecursion (λ (tuple : Coded). tuple.codes ≢ pick (member_columns access.now) row_codes.now) self.now)
            (λ at. (at < length self.now)
            × ((d : Coded) → (slice_index_or self.now at d).codes ≡ pick (member_columns access.now) row_codes.now)) }
    {
        match &self.form {
            Form::Short(_) => self.scan(access, row_codes),
            Form::Labelled(tuples) => match KeyCodes::<FEW>::tuple(access, row_codes) {
                Some(tuple) => tuples.position_of(tuple.as_slice()),
                None => self.wide_position_of(access, row_codes),
            },
        }
    }

    /// Gives a short group that is full the form of a long one, whose codes are hashed in this way. The tuples stay.
    fn widen(&mut self, alloc: Global, hashing: SeededHashing) -> Result<(), NoMemory>
        requires few { length self.old < 2 ^ 32 }
        requires distinct { AreDistinct self.old }
        ensures { self.new ≡ self.old }
    {
        let tuples = match &self.form {
            Form::Labelled(_) => return Ok(()),
            Form::Short(tuples) => {
                if tuples.len() < SHORT {
                    return Ok(());
                }
                LabelledList::over(alloc, hashing, tuples)?
            }
        };
        self.form = Form::Labelled(Box::new(alloc, tuples)?);
        Ok(())
    }

    /// Puts a tuple that isn't there in at a place. If it makes the group a long one, codes will be hashed in this way. After
    /// an error all is as before.
    pub fn insert(
        &mut self,
        alloc: Global,
        hashing: SeededHashing,
        at: usize,
        tuple: Coded,
    ) -> Result<(), NoMemory>
        requires within { at ≤ length self.old }
        requires room { length self.old + 1 < 2 ^ 32 }
        requires distinct { AreDistinct self.old }
        requires absent { AllByRecursion (λ (item : Coded). item.codes ≢ tuple.codes) self.old }
        ensures ok { OnOk result (self.new ≡ insert self.old at tuple) }
        ensures err { OnErr result (self.new ≡ self.old) }
    {
        self.widen(alloc, hashing)?;
        match &mut self.form {
            Form::Short(tuples) => tuples.insert(alloc, at, tuple),
            Form::Labelled(tuples) => tuples.insert(alloc, at, tuple),
        }
    }

    /// Writes how many rows have the tuple at a place. It takes no memory.
    pub fn recount(&mut self, at: usize, count: u32)
        requires { at < length self.old }
        ensures { (d : Coded) → self.new
            ≡ slice_set self.old at (record { codes = (slice_index_or self.old at d).codes; count = count }) }
    {
        match &mut self.form {
            Form::Short(tuples) => tuples.recount(at, count),
            Form::Labelled(tuples) => tuples.recount(at, count),
        }
    }

    /// Drops the tuple at a place. It takes no memory.
    pub fn remove(&mut self, at: usize)
        requires { at < length self.old }
        ensures { self.new ≡ remove self.old at }
    {
        match &mut self.form {
            Form::Short(tuples) => tuples.remove(at),
            Form::Labelled(tuples) => tuples.remove(at),
        }
    }

    /// An equal group, in a time that grows with its length.
    pub fn copy(&self, alloc: Global) -> Result<Group, NoMemory>
        ensures { IfOk result (λ copy. copy ≡ self.now) }
    {
        let form = match &self.form {
            Form::Short(tuples) => Form::Short(tuples.copy(alloc)?),
            Form::Labelled(tuples) => Form::Labelled(Box::new(alloc, tuples.copy(alloc)?)?),
        };
        Ok(Group { form })
    }
}
