// Steps that a derivation does without: each whose atom another step serves is tried, from the last to the first, by the
// uses of constraints alone.
ghost use Rattle.std.specs.Prelude.{◌≡◌, ◌≤◌, ◌<◌, All, IfOk, IsTrue, length, map, nat_lt, not};
ghost use Rattle.std.specs.Bool.{OnTrue};
ghost use Rattle.beas_core.specs.Coverage.{start_classes};
ghost use Rattle.beas_core.specs.Derivations.{IsSound, is_live, use_of};
ghost use Rattle.beas_core.specs.Pruning.{pruned};
ghost use Rattle.beas_core.specs.Shapes.{EachIdOnce};
ghost use Rattle.attribute_closure.specs.Uses.{as_use};
ghost use Rattle.plan_builder.specs.Fronts.{IsFront, IsKept, reads_or_cap};
ghost use Rattle.plan_builder.specs.Trials.{all_are_served, are_sound, steps_from, uses_pruned, uses_pruned_at, uses_without};

use crate::derivations::{is_served_among, take_step};
use crate::fronts::{Front, take_uses};
use crate::sets::start_of;
use attribute_closure::{UseAt, open_place};
use beas_core::{Access, DStep, List, NoMemory, Normal, Sizes};
use bound_calculator::access_with;
use std::alloc::Global;

/// The uses that are left of a derivation, and the sizes of their steps.
#[derive(Drop)]
pub struct Kept<'a> {
    pub uses: List<UseAt<'a>>,
    pub sizes: Option<Sizes>,
}

// The use of each step, its constraint looked up once.
fn uses_of_steps<'a>(
    alloc: Global,
    accesses: &'a [Access],
    steps: &[DStep],
) -> Result<List<UseAt<'a>>, NoMemory>
    requires ids { EachIdOnce accesses.now }
    requires live { All (λ s. IsTrue (is_live accesses.now s.access)) steps.now }
    ensures { IfOk result (λ found. map as_use found ≡ map (use_of accesses.now) steps.now) }
{
    let mut found = List::from_vec(Vec::with_capacity(alloc, steps.len())?);
    for step in steps {
        match access_with(accesses, step.access) {
            Some(access) => found.push(UseAt {
                atom: step.atom,
                access,
            })?,
            None => unreachable!(),
        }
    }
    Ok(found)
}

// Whether uses that serve all atoms do so without the one at a place: only the atom of that one is looked at.
fn is_served_besides(block: &Normal, uses: &[UseAt<'_>], place: usize) -> bool
    requires { place < length uses.now }
    ensures { IsTrue (all_are_served block.now (map as_use uses.now))
        → result ≡ all_are_served block.now (uses_without place (map as_use uses.now)) }
{
    let atom = uses[place].atom;
    if usize::from(atom) >= block.atoms.len() {
        return true;
    }
    is_served_among(block, &uses[..place], atom) || is_served_among(block, &uses[place + 1..], atom)
}

// Whether uses that are sound are so without the one at a place. Where they are, `front` is what the others come to.
fn is_sound_without(
    block: &Normal,
    start: &[bool],
    uses: &[UseAt<'_>],
    place: usize,
    front: &mut Front,
) -> Result<bool, NoMemory>
    requires needed { length block.now.needed ≤ 65536 }
    requires place { place < length uses.now }
    ensures sound { IfOk result (λ sound. IsTrue (are_sound block.now start.now (map as_use uses.now))
        → sound ≡ are_sound block.now start.now (uses_without place (map as_use uses.now))) }
    ensures front { IfOk result (λ sound.
        OnTrue sound (IsFront block.now start.now (uses_without place (map as_use uses.now)) front.new)) }
{
    // What serves its atom alone stays, and no front is made.
    if !is_served_besides(block, uses, place) {
        return Ok(false);
    }
    front.restart(start)?;
    if !take_uses(block, &uses[..place], front) {
        return Ok(false);
    }
    if !take_uses(block, &uses[place + 1..], front) {
        return Ok(false);
    }
    match open_place(block, &front.set) {
        Some(_place) => Ok(false),
        None => Ok(true),
    }
}

// Whether the reads are no more. No sizes stand for a number past all others.
fn is_no_greater(sizes: Option<Sizes>, most: Option<Sizes>) -> bool
    ensures { result ≡ not (nat_lt (reads_or_cap most) (reads_or_cap sizes)) }
{
    match most {
        None => true,
        Some(most) => match sizes {
            None => false,
            Some(sizes) => sizes.reads <= most.reads,
        },
    }
}

// The uses without the one at a place, where it may go. `front` is taken for the trial, whatever it was.
fn pruned_at<'a>(
    block: &Normal,
    start: &[bool],
    place: usize,
    front: &mut Front,
    kept: Kept<'a>,
) -> Result<Kept<'a>, NoMemory>
    requires needed { length block.now.needed ≤ 65536 }
    requires place { place < length kept.uses }
    ensures length { IfOk result (λ left. place ≤ length left.uses) }
    ensures pruned { IfOk result (λ left. IsKept block.now start.now kept.entry → IsKept block.now start.now left
        × (map as_use left.uses ≡ uses_pruned_at block.now start.now place (map as_use kept.entry.uses))) }
{
    if !is_sound_without(block, start, kept.uses.as_slice(), place, front)? {
        return Ok(kept);
    }
    if !is_no_greater(front.sizes, kept.sizes) {
        return Ok(kept);
    }
    let mut uses = kept.uses.into_vec();
    uses.remove(place);
    Ok(Kept {
        uses: List::from_vec(uses),
        sizes: front.sizes,
    })
}

fn prune<'a>(
    alloc: Global,
    block: &Normal,
    start: &[bool],
    uses: List<UseAt<'a>>,
) -> Result<List<UseAt<'a>>, NoMemory>
    requires needed { length block.now.needed ≤ 65536 }
    requires sound { IsTrue (are_sound block.now start.now (map as_use uses)) }
    ensures { IfOk result (λ left. map as_use left ≡ uses_pruned block.now start.now (map as_use uses.entry)) }
{
    let mut front = Front::start(alloc, start)?;
    // Their keys are all bound, since they are sound.
    let _bound = take_uses(block, uses.as_slice(), &mut front);
    let mut place = uses.len();
    let mut kept = Kept {
        uses,
        sizes: front.sizes,
    };
    while place > 0 {
        place -= 1;
        kept = pruned_at(block, start, place, &mut front, kept)?;
    }
    Ok(kept.uses)
}

// The steps of uses from a set of classes, which takes theirs.
#[tactic(auto, using(crate::proofs::DropTurns::steps_go_on, crate::proofs::DropTurns::steps_end))]
fn steps_of(
    alloc: Global,
    block: &Normal,
    set: &mut [bool],
    uses: &[UseAt<'_>],
) -> Result<List<DStep>, NoMemory>
    ensures { IfOk result (λ steps. steps ≡ steps_from block.now set.old (map as_use uses.now)) }
{
    let mut steps = List::from_vec(Vec::with_capacity(alloc, uses.len())?);
    for found in uses {
        take_step(&mut steps, set, block, *found)?;
    }
    Ok(steps)
}

/// The steps of a derivation that are left after each, from the last to the first, has gone where it may. It takes no
/// memory where there are no more steps than atoms: each atom needs one, so that none may go. Else it makes the start
/// anew.
pub fn needed_steps(
    alloc: Global,
    accesses: &[Access],
    block: &Normal,
    guided: bool,
    steps: List<DStep>,
) -> Result<List<DStep>, NoMemory>
    requires needed { length block.now.needed ≤ 65536 }
    requires ids { EachIdOnce accesses.now }
    requires sound { IsSound block.now accesses.now (start_classes block.now guided) steps }
    ensures { IfOk result (λ left. left ≡ pruned block.now accesses.now (start_classes block.now guided) steps) }
{
    if steps.len() <= block.atoms.len() {
        return Ok(steps);
    }
    let uses = uses_of_steps(alloc, accesses, steps.as_slice())?;
    let mut set = start_of(alloc, block, guided)?;
    let left = prune(alloc, block, &set, uses)?;
    steps_of(alloc, block, &mut set, left.as_slice())
}
