// The codes of a tuple as a key of a map.
ghost use Rattle.std.specs.Prelude.{◌≡◌, ◌≤◌, length, nat_eq, IfOk};
ghost use Rattle.std.specs.Cmp.{partial_equiv_from_equiv};
ghost use Rattle.std.specs.Cmp.Lexicographic.{pointwise, nat_list_eq_equiv};
ghost use Rattle.std.specs.Hash as fed;
ghost use Rattle.labelled_list.specs.Hashing.{codes_alike};
ghost use Rattle.labelled_list.specs.Kept.{kept_codes, IsKept};

use beas_core::{Duplicate, NoMemory};
use indexmap::Equivalent;
use std::alloc::Global;
use std::hash::{Hash, Hasher};
use std::marker::Model;

/// As many codes stand in place at most: such tuples have a key of three columns and one that is fetched, say.
const FEW: usize = 4;

/// Where the codes of a tuple lie. A few stand in place, so that they cost no block of memory and are read where the tuple
/// is found, without a jump. Their number takes no room of its own, as it lies beside the tag.
#[derive(Drop)]
enum Kept {
    Short { len: u8, codes: [u64; FEW] },
    Long(Vec<u64>),
}

/// A few codes, in place.
fn in_place(codes: &[u64]) -> Kept
    requires { length codes.now ≤ 4 }
    ensures kept { IsKept result }
    ensures codes { kept_codes result ≡ codes.now }
{
    let len = codes.len();
    let mut short = [0; FEW];
    short[..len].copy_from_slice(codes);
    Kept::Short {
        len: len as u8,
        codes: short,
    }
}

/// The codes of a tuple, seen as their list. Up to four of them stand in place.
#[derive(Drop)]
pub struct TupleCodes {
    kept: Kept,
}

impl Model for TupleCodes {
    ghost use Rattle.std.specs.Prelude.{List, ℕ};
    ghost use Rattle.labelled_list.specs.Kept.{kept_codes, IsKept};

    ghost Value = { List ℕ };

    ghost view = { λ s. kept_codes s.kept };

    ghost invariant = { λ s. IsKept s.kept };
}

impl TupleCodes {
    /// These codes. It takes no memory.
    pub fn from_vec(codes: Vec<u64>) -> TupleCodes
        ensures { result ≡ codes.items }
    {
        let kept = if codes.len() > FEW {
            Kept::Long(codes)
        } else {
            in_place(&codes)
        };
        TupleCodes { kept }
    }

    /// The same codes. It takes no memory for up to four.
    pub fn of(alloc: Global, codes: &[u64]) -> Result<TupleCodes, NoMemory>
        ensures { IfOk result (λ key. key ≡ codes.now) }
    {
        let kept = if codes.len() > FEW {
            Kept::Long(codes.to_vec(alloc)?)
        } else {
            in_place(codes)
        };
        Ok(TupleCodes { kept })
    }

    /// The codes. It takes no memory.
    pub fn as_slice(&self) -> &[u64]
        ensures { result.now ≡ self.now }
    {
        match &self.kept {
            Kept::Short { len, codes } => &codes[..*len as usize],
            Kept::Long(codes) => codes.as_slice(),
        }
    }
}

impl Duplicate for TupleCodes {
    fn copy(&self, alloc: Global) -> Result<TupleCodes, NoMemory> {
        TupleCodes::of(alloc, self.as_slice())
    }
}

impl PartialEq for TupleCodes {
    ghost eq = { pointwise nat_eq };

    ghost laws = { partial_equiv_from_equiv nat_list_eq_equiv };

    fn eq(&self, other: &TupleCodes) -> bool {
        self.as_slice() == other.as_slice()
    }
}

impl Eq for TupleCodes {
    ghost laws = { nat_list_eq_equiv };
}

impl Hash for TupleCodes {
    ghost hash_input = { fed.slice fed.u64 };

    ghost respects_eq = { codes_alike };

    fn hash<H: Hasher>(&self, state: &mut H) {
        self.as_slice().hash(state);
    }
}

/// A tuple is looked up by its codes, which takes no memory.
impl Equivalent<TupleCodes> for &[u64] {
    ghost equivalent = { λ q. pointwise nat_eq q.now };

    ghost respects_hash = { λ q. codes_alike q.now };

    ghost respects_eq = { λ q x y. nat_list_eq_equiv.congr q.now x y };

    fn equivalent(&self, key: &TupleCodes) -> bool {
        *self == key.as_slice()
    }
}
