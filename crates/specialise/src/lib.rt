//! Which columns, given as constants, would make a block covered.
#![tactic(auto)]

mod alike;
mod candidates;
mod laws;
mod rules;
mod servers;
mod trial;

ghost use Rattle.std.specs.Prelude.{◌≡◌, ◌≤◌, false};
ghost use Rattle.beas_core.specs.declared.refusal.Refusal.TheVariants.{TooManyCandidates};
ghost use Rattle.beas_core.specs.Classes.{normal_of};
ghost use Rattle.beas_core.specs.Coverage.{own_cover, own_is_covered};
ghost use Rattle.beas_core.specs.Results.{Gives};
ghost use Rattle.beas_core.specs.Shapes.{BlockIsWellFormed};
ghost use Rattle.specialise.specs.Specialised.{specialised};

use crate::alike::without_alike;
use crate::candidates::candidates_of;
pub use crate::laws::law_values;
use crate::trial::trial_of;
use attribute_closure::{close, uses_of, why_not};
use beas_core::{Access, Block, Fail, List, Normal, Place, Refusal};
use normal_form::normalise;
use std::alloc::Global;

/// How many candidates there may be: each set of them is tried.
const LIMIT: usize = 16;

/// Of so many constraints none is left out.
const FEW_ACCESSES: usize = 64;

fn too_many(found: usize, classes: u16) -> Refusal
    requires { found ≤ classes }
    ensures { result ≡ TooManyCandidates found }
{
    Refusal::TooManyCandidates {
        found: found as u32,
    }
}

// What is answered of a block that isn't covered, where `cover` is its covered set.
#[tactic(auto, using(coverage_check::proofs::NormalFacts::few_atoms))]
fn search(
    alloc: Global,
    accesses: &List<Access>,
    block: &Block,
    normal: &Normal,
    cover: &[bool],
) -> Result<Option<List<Place>>, Fail>
    requires shape { BlockIsWellFormed block.now }
    requires normal { normal.now ≡ normal_of block.now }
    requires cover { cover.now ≡ own_cover normal.now accesses.now }
    requires open { own_is_covered normal.now accesses.now ≡ false }
    ensures { Gives result (specialised accesses.now block.now) }
{
    let found = uses_of(alloc, normal, accesses.as_slice())?;
    let candidates = candidates_of(alloc, block, normal, cover, found.as_slice())?;
    let number = candidates.len();
    if number > LIMIT {
        return Err(Fail::Refused(too_many(number, normal.count)));
    }
    let trial = trial_of(alloc, accesses, block, normal, found.as_slice(), candidates)?;
    Ok(trial.search(alloc)?)
}

// What is answered of a block, where `normal` is its normal form.
#[tactic(auto, using(coverage_check::proofs::NormalFacts::in_range, coverage_check::proofs::NormalFacts::few_atoms, coverage_check::proofs::NormalFacts::few_needed))]
fn specialise_normal(
    alloc: Global,
    accesses: &List<Access>,
    block: &Block,
    normal: &Normal,
) -> Result<Option<List<Place>>, Fail>
    requires shape { BlockIsWellFormed block.now }
    requires normal { normal.now ≡ normal_of block.now }
    ensures { Gives result (specialised accesses.now block.now) }
{
    let cover = close(alloc, normal, accesses)?;
    match why_not(normal, accesses.as_slice(), cover.as_slice()) {
        None => Ok(Some(List::new(alloc))),
        Some(_) => search(alloc, accesses, block, normal, cover.as_slice()),
    }
}

// What is answered of a block, whose sets of candidates are tried against each of the constraints.
fn specialise_over(
    alloc: Global,
    accesses: &List<Access>,
    block: &Block,
) -> Result<Option<List<Place>>, Fail>
    requires { BlockIsWellFormed block.now }
    ensures { Gives result (specialised accesses.now block.now) }
{
    let normal = normalise(alloc, block)?;
    let found = specialise_normal(alloc, accesses, block, &normal);
    drop(normal);
    found
}

/// The columns of a block that make it covered, once each is equated with a constant: the first places of the first set of
/// candidates that does it, in ascending order, and nothing where no set does. Sets stand by size, and those of one size as
/// lists. The candidates are the classes that the constraints don't cover, and of which a place is needed, or stands in the key of
/// a constraint on its table; a class gets its constant at its first place, which makes that column needed. For a block that is
/// covered the list is empty. More than 16 candidates are refused, unless the block is covered. Out of memory is the only other
/// error.
pub fn specialise(
    alloc: Global,
    accesses: &List<Access>,
    block: &Block,
) -> Result<Option<List<Place>>, Fail>
    requires { BlockIsWellFormed block.now }
    ensures { Gives result (specialised accesses.now block.now) }
{
    if accesses.len() <= FEW_ACCESSES {
        return specialise_over(alloc, accesses, block);
    }
    let few = without_alike(alloc, accesses.as_slice())?;
    specialise_over(alloc, &few, block)
}
