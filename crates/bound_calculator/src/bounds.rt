// A constraint, by its id.
ghost use Rattle.std.specs.Prelude.{◌≡◌, MatchOption, false};
ghost use Rattle.beas_core.specs.Derivations.{access_in, is_live};
ghost use Rattle.beas_core.specs.Shapes.{EachIdOnce};

use beas_core::{Access, AccessId};

#[tactic(auto, using(crate::proofs::AccessById::found_here, crate::proofs::AccessById::found_later, crate::proofs::AccessById::live_later, crate::proofs::AccessById::live_nowhere))]
fn access_by_walk<'a>(accesses: &'a [Access], id: AccessId) -> Option<&'a Access>
    ensures { MatchOption result (is_live accesses.now id ≡ false) (λ found. found.now ≡ access_in accesses.now id) }
{
    for access in accesses {
        if access.id.0 == id.0 {
            return Some(access);
        }
    }
    None
}

#[tactic(auto, using(crate::proofs::AccessById::found_at))]
/// The constraint with this id, if there is one. Constraints mostly stand in order of creation, and then halving
/// finds it; others are walked over.
pub fn access_with<'a>(accesses: &'a [Access], id: AccessId) -> Option<&'a Access>
    requires { EachIdOnce accesses.now }
    ensures { MatchOption result (is_live accesses.now id ≡ false) (λ found. found.now ≡ access_in accesses.now id) }
{
    match accesses.binary_search_by_key(&id.0, |access| access.id.0) {
        Ok(at) => Some(&accesses[at]),
        Err(_) => access_by_walk(accesses, id),
    }
}

/// The bound of the constraint with this id, 0 where there is none.
#[tactic(auto, using(crate::proofs::AccessById::no_bound))]
pub fn bound_of(accesses: &[Access], id: AccessId) -> u32
    requires { EachIdOnce accesses.now }
    ensures { result ≡ (access_in accesses.now id).bound }
{
    match access_with(accesses, id) {
        Some(access) => access.bound,
        None => 0,
    }
}
