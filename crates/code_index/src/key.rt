// Codes by which maps are asked.
ghost use Rattle.std.specs.Prelude.{◌≡◌, ◌≤◌, length, take, IfSome, MatchOption};
ghost use Rattle.beas_core.specs.Groups.{member_columns};
ghost use Rattle.code_index.specs.Reading.{pick};
ghost use Rattle.code_index.specs.Spelling.{AllHaveCodes, AreCodesOf};

use crate::codes::{column_at, row_code};
use crate::interner::Interner;
use beas_core::{Access, ColumnId, Value};
use std::marker::Model;

/// The codes of a whole tuple, up to `N` of them, by which a map is asked. They lie in place and take no memory.
#[derive(Drop)]
pub struct KeyCodes<const N: usize> {
    codes: [u64; N],
    len: usize,
}

impl<const N: usize> Model for KeyCodes<N> {
    ghost use Rattle.std.specs.Prelude.{◌≡◌, ◌≤◌, List, ℕ, length, take};

    ghost Value = { List ℕ };

    ghost view = { λ s. take s.len s.codes };

    ghost invariant = { λ s. (s.len ≤ N) × (length s.codes ≡ N) };
}

impl<const N: usize> KeyCodes<N> {
    /// The codes of a row's tuple, or none where it has more than `N`.
    #[tactic(auto, using(crate::proofs::Members::members_long))]
    pub fn tuple(access: &Access, row_codes: &[u64]) -> Option<KeyCodes<N>>
        ensures { IfSome result (λ tuple. tuple ≡ pick (member_columns access.now) row_codes.now) }
    {
        let len = access.key.len().saturating_add(access.fetched.len());
        if len > N {
            return None;
        }
        let mut tuple = [0; N];
        for i in 0..len {
            tuple[i] = row_code(row_codes, column_at(access, i));
        }
        Some(KeyCodes { codes: tuple, len })
    }

    pub fn as_slice(&self) -> &[u64]
        ensures { result.now ≡ self.now }
    {
        &self.codes[..self.len]
    }
}

/// The codes of a key's values, at the front of `N` numbers, or none where one of them was never interned.
pub fn known_codes<const N: usize>(codes: &Interner, key: &[Value]) -> Option<[u64; N]>
    requires { length key.now ≤ N }
    ensures { MatchOption result (AllHaveCodes codes.now key.now → ⊥)
        (λ key_codes. AreCodesOf codes.now (take (length key.now) key_codes) key.now) }
{
    let mut key_codes = [0; N];
    for (i, value) in key.iter().enumerate() {
        match codes.code(value) {
            Some(code) => key_codes[i] = code,
            None => return None,
        }
    }
    Some(key_codes)
}
