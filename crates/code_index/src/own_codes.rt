// What holds the codes of a group's key: an array where their number is fixed, else `TupleCodes`.
ghost use Rattle.std.specs.Prelude.{◌≡◌, ◌≤◌, ℕ, List, length, nat_eq, IfOk};
ghost use Rattle.std.specs.Cmp.{partial_equiv_from_equiv};
ghost use Rattle.std.specs.Cmp.Lexicographic.{pointwise, nat_list_eq_equiv};
ghost use Rattle.std.specs.Hash as fed;
ghost use Rattle.labelled_list.specs.Hashing.{codes_alike};
ghost use Rattle.code_index.specs.Reading.{pick};

use crate::codes::{key_of, push_codes};
use beas_core::{ColumnId, Duplicate, NoMemory};
use labelled_list::TupleCodes;
use std::alloc::Global;
use std::hash::{Hash, Hasher};
use std::marker::Model;

/// What holds the codes of a key: an array where their number is fixed, else `TupleCodes`.
pub trait OwnCodes: Drop {
    ghost seen: { Self → List ℕ };

    ghost fits: { ℕ → Type 0 };

    /// The codes. It takes no memory.
    fn as_slice(&self) -> &[u64]
        ensures { result.now ≡ seen self.now };

    /// The codes of a row in some columns.
    fn of_row(alloc: Global, columns: &[ColumnId], row_codes: &[u64]) -> Result<Self, NoMemory>
        requires { fits (length columns.now) }
        ensures { IfOk result (λ own. seen own ≡ pick columns.now row_codes.now) };

    /// The same codes.
    fn copy(&self, alloc: Global) -> Result<Self, NoMemory>
        ensures { IfOk result (λ copy. seen copy ≡ seen self.now) };
}

/// Exactly `K` codes, in place. They take no memory.
impl<const K: usize> OwnCodes for [u64; K] {
    ghost seen = { λ s. s };

    ghost fits = { λ n. n ≡ K };

    fn as_slice(&self) -> &[u64] {
        &self[..]
    }

    fn of_row(
        _alloc: Global,
        columns: &[ColumnId],
        row_codes: &[u64],
    ) -> Result<[u64; K], NoMemory> {
        Ok(key_of::<K>(columns, row_codes))
    }

    fn copy(&self, _alloc: Global) -> Result<[u64; K], NoMemory> {
        Ok(*self)
    }
}

/// Up to 64 codes, as many as a key can have.
impl OwnCodes for TupleCodes {
    ghost seen = { λ s. s };

    ghost fits = { λ n. n ≤ 64 };

    fn as_slice(&self) -> &[u64] {
        self.as_slice()
    }

    fn of_row(
        alloc: Global,
        columns: &[ColumnId],
        row_codes: &[u64],
    ) -> Result<TupleCodes, NoMemory> {
        let mut key = Vec::with_capacity(alloc, columns.len())?;
        push_codes(&mut key, columns, row_codes)?;
        Ok(TupleCodes::from_vec(key))
    }

    fn copy(&self, alloc: Global) -> Result<TupleCodes, NoMemory> {
        Duplicate::copy(self, alloc)
    }
}

/// The key of a group, seen as its codes.
#[derive(Drop)]
pub struct GroupKey<W: OwnCodes> {
    own: W,
}

impl<W: OwnCodes> Model for GroupKey<W> {
    ghost use Rattle.std.specs.Prelude.{List, ℕ};

    ghost Value = { List ℕ };

    ghost view = { λ s. W.seen s.own };
}

impl<W: OwnCodes> GroupKey<W> {
    /// The key of a row.
    pub fn of_row(
        alloc: Global,
        columns: &[ColumnId],
        row_codes: &[u64],
    ) -> Result<GroupKey<W>, NoMemory>
        requires { W.fits (length columns.now) }
        ensures { IfOk result (λ key. key ≡ pick columns.now row_codes.now) }
    {
        Ok(GroupKey {
            own: W::of_row(alloc, columns, row_codes)?,
        })
    }

    /// Its codes. It takes no memory.
    pub fn as_slice(&self) -> &[u64]
        ensures { result.now ≡ self.now }
    {
        self.own.as_slice()
    }

    /// The same key.
    pub fn copy(&self, alloc: Global) -> Result<GroupKey<W>, NoMemory>
        ensures { IfOk result (λ copy. copy ≡ self.now) }
    {
        Ok(GroupKey {
            own: self.own.copy(alloc)?,
        })
    }
}

impl<W: OwnCodes> PartialEq for GroupKey<W> {
    ghost eq = { pointwise nat_eq };

    ghost laws = { partial_equiv_from_equiv nat_list_eq_equiv };

    fn eq(&self, other: &GroupKey<W>) -> bool {
        self.as_slice() == other.as_slice()
    }
}

impl<W: OwnCodes> Eq for GroupKey<W> {
    ghost laws = { nat_list_eq_equiv };
}

impl<W: OwnCodes> Hash for GroupKey<W> {
    ghost hash_input = { fed.slice fed.u64 };

    ghost respects_eq = { codes_alike };

    fn hash<H: Hasher>(&self, state: &mut H) {
        self.as_slice().hash(state);
    }
}
