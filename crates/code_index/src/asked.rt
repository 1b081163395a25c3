// Keys by which a map of groups is asked, read where their codes lie.
ghost use Rattle.std.specs.Prelude.{◌≡◌, nat_eq};
ghost use Rattle.std.proofs.Common.{ap};
ghost use Rattle.std.specs.Cmp.Lexicographic.{pointwise, bytes_decides, nat_list_eq_equiv};
ghost use Rattle.std.specs.Hash as fed;
ghost use Rattle.code_index.specs.Reading.{pick};
ghost use Rattle.code_index.specs.Asking.{rows_alike};

use crate::codes::row_code;
use crate::own_codes::{GroupKey, OwnCodes};
use beas_core::ColumnId;
use indexmap::Equivalent;
use std::hash::{Hash, Hasher};

/// The codes of a key whose group is asked for. They aren't copied.
#[derive(Clone, Copy, PartialEq, Eq, Hash)]
pub struct AskedCodes<'a> {
    pub codes: &'a [u64],
}

/// A row whose group is asked for by its codes in the columns of a key. They aren't copied.
#[derive(Clone, Copy, PartialEq, Eq)]
pub struct AskedRow<'a> {
    pub columns: &'a [ColumnId],
    pub codes: &'a [u64],
}

/// Whether two keys have the same codes. Most have three at most; longer ones are compared by a call, which takes longer.
fn same_codes(left: &[u64], right: &[u64]) -> bool
    ensures { result ≡ pointwise nat_eq left.now right.now }
{
    match (left, right) {
        ([a], [d]) => *a == *d,
        ([a, b], [d, e]) => *a == *d && *b == *e,
        ([a, b, c], [d, e, f]) => *a == *d && *b == *e && *c == *f,
        _ => left == right,
    }
}

/// Whether a row has a key.
fn has_key(columns: &[ColumnId], row_codes: &[u64], key: &[u64]) -> bool
    ensures { result ≡ pointwise nat_eq (pick columns.now row_codes.now) key.now }
{
    if columns.len() != key.len() {
        return false;
    }
    for (i, column) in columns.iter().enumerate() {
        if row_code(row_codes, *column) != key[i] {
            return false;
        }
    }
    true
}

impl<W: OwnCodes> Equivalent<GroupKey<W>> for AskedCodes<'_> {
    ghost equivalent = { λ asked. pointwise nat_eq asked.codes.now };

    ghost respects_hash = { λ asked key e. ap (fed.slice fed.u64) ((bytes_decides asked.codes.now key).0 e) };

    ghost respects_eq = { λ asked. nat_list_eq_equiv.congr asked.codes.now };

    fn equivalent(&self, key: &GroupKey<W>) -> bool {
        same_codes(self.codes, key.as_slice())
    }
}

/// It feeds what its codes in the columns do.
impl Hash for AskedRow<'_> {
    ghost hash_input = { λ asked. fed.slice fed.u64 (pick asked.columns.now asked.codes.now) };

    ghost respects_eq = { rows_alike };

    fn hash<H: Hasher>(&self, state: &mut H) {
        state.write_usize(self.columns.len());
        for column in self.columns {
            state.write_u64(row_code(self.codes, *column));
        }
    }
}

impl<W: OwnCodes> Equivalent<GroupKey<W>> for AskedRow<'_> {
    ghost equivalent = { λ asked. pointwise nat_eq (pick asked.columns.now asked.codes.now) };

    ghost respects_hash = { λ asked key e. ap (fed.slice fed.u64) ((bytes_decides (pick asked.columns.now asked.codes.now) key).0 e) };

    ghost respects_eq = { λ asked. nat_list_eq_equiv.congr (pick asked.columns.now asked.codes.now) };

    fn equivalent(&self, key: &GroupKey<W>) -> bool {
        has_key(self.columns, self.codes, key.as_slice())
    }
}
