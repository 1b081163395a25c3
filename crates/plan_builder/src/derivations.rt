// Derivations: steps that add classes while the block isn't covered, then steps that serve its atoms.
ghost use Rattle.std.specs.Prelude.{◌≡◌, ◌≤◌, ◌<◌, ◌++◌, ◌∷◌, [], All, IfOk, IsTrue, OnOk, MatchBool, MatchResult, None, Some, length, map, take};
ghost use Rattle.std.specs.List.{list_any};
ghost use Rattle.beas_core.specs.declared.schema.Access.{Access};
ghost use Rattle.beas_core.specs.Coverage.{ClassesInRange, atoms_of, covered_set, holds_needed, is_covered, own_reason, reason, start_classes, uses as uses_in};
ghost use Rattle.beas_core.specs.Derivations.{adding_steps, greedy_steps, is_live, is_served_by, serving_steps, step_of, use_of, with_use};
ghost use Rattle.beas_core.specs.Pruning.{derivation, own_derivation};
ghost use Rattle.beas_core.specs.Shapes.{EachIdOnce};
ghost use Rattle.attribute_closure.specs.Uses.{as_use};
ghost use Rattle.plan_builder.specs.Candidates.{AreCandidates};
ghost use Rattle.plan_builder.specs.Plans.{HasCome, served_among};

use crate::candidates::Candidates;
use crate::choices::{best_adding, best_serving};
use crate::pruning::needed_steps;
use crate::sets::{add_use, adds, start_of};
use attribute_closure::{UseAt, close_from, holds_needed, uses_within, why_not};
use beas_core::{Access, DStep, Derivation, List, NoMemory, Normal, NotCovered};
use bound_calculator::access_with;
use std::alloc::Global;

/// The most uses of constraints of which the best is looked for anew at each turn. That takes no memory, and is slower
/// than a queue where there are many.
const FEW_USES: usize = 16;

// Adds a use as the next step. The set has the classes that are bound before it.
fn push_step(
    steps: &mut List<DStep>,
    block: &Normal,
    set: &[bool],
    found: UseAt<'_>,
) -> Result<(), NoMemory>
    ensures { OnOk result (steps.new ≡ steps.old ++ step_of block.now set.now (as_use found.entry) ∷ []) }
{
    let adds = adds(block, set, &found);
    steps.push(DStep {
        atom: found.atom,
        access: found.access.id,
        adds,
    })
}

/// Takes a use as the next step, after which the set has its classes too.
pub fn take_step(
    steps: &mut List<DStep>,
    set: &mut [bool],
    block: &Normal,
    found: UseAt<'_>,
) -> Result<(), NoMemory>
    ensures steps { OnOk result (steps.new ≡ steps.old ++ step_of block.now set.old (as_use found.entry) ∷ []) }
    ensures set { OnOk result (set.new ≡ with_use block.now set.old (as_use found.entry)) }
{
    push_step(steps, block, set, found)?;
    add_use(block, &found, set);
    Ok(())
}

// Adds steps until the candidates' set covers the block. False where no use is left that adds a class.
fn add_steps(
    steps: &mut List<DStep>,
    block: &Normal,
    candidates: &mut Candidates<'_>,
) -> Result<bool, NoMemory>
    requires ranges { ClassesInRange block.now }
    requires needed { length block.now.needed ≤ 65536 }
    requires are { AreCandidates block.now candidates.old }
    requires steps { steps.old ≡ [] }
    ensures uses { candidates.new.keys.uses ≡ candidates.old.keys.uses }
    ensures come { IfOk result (λ whole. (accesses : List Access)
        → EachIdOnce accesses → map as_use candidates.old.keys.uses ≡ uses_in block.now accesses
        → MatchBool whole
        (HasCome block.now accesses candidates.old.keys.set.items candidates.new.keys.set.items steps.new
        × (adding_steps block.now.count block.now accesses candidates.old.keys.set.items ≡ Some steps.new))
        (adding_steps block.now.count block.now accesses candidates.old.keys.set.items ≡ None)) }
{
    for _turn in 0..block.count {
        if candidates.cover(block) {
            return Ok(true);
        }
        match candidates.next(block) {
            None => return Ok(false),
            Some(found) => {
                push_step(steps, block, &candidates.keys.set, found)?;
                candidates.take(block, &found)?;
            }
        }
    }
    Ok(candidates.cover(block))
}

fn covers(block: &Normal, accesses: &[Access], set: &[bool]) -> bool
    requires atoms { length block.now.atoms ≤ 65536 }
    requires needed { length block.now.needed ≤ 65536 }
    ensures { result ≡ is_covered block.now accesses.now set.now }
{
    match why_not(block, accesses, set) {
        None => true,
        Some(_why) => false,
    }
}

// Adds steps until the set covers the block, going over all uses for each. False where none is left that adds a class.
fn add_best(
    steps: &mut List<DStep>,
    set: &mut [bool],
    block: &Normal,
    accesses: &[Access],
    uses: &[UseAt<'_>],
) -> Result<bool, NoMemory>
    requires atoms { length block.now.atoms ≤ 65536 }
    requires needed { length block.now.needed ≤ 65536 }
    requires ids { EachIdOnce accesses.now }
    requires uses { map as_use uses.now ≡ uses_in block.now accesses.now }
    requires steps { steps.old ≡ [] }
    ensures { IfOk result (λ whole. MatchBool whole
        (HasCome block.now accesses.now set.old set.new steps.new
        × (adding_steps block.now.count block.now accesses.now set.old ≡ Some steps.new))
        (adding_steps block.now.count block.now accesses.now set.old ≡ None)) }
{
    for _turn in 0..block.count {
        if covers(block, accesses, set) {
            return Ok(true);
        }
        match best_adding(block, uses, set) {
            None => return Ok(false),
            Some(found) => take_step(steps, set, block, found)?,
        }
    }
    Ok(covers(block, accesses, set))
}

/// Whether one of some uses is on an atom and has its needed columns in key or fetched.
pub fn is_served_among(block: &Normal, taken: &[UseAt<'_>], atom: u16) -> bool
    ensures { result ≡ served_among block.now atom (map as_use taken.now) }
{
    for found in taken {
        if found.atom == atom {
            if holds_needed(block, found) {
                return true;
            }
        }
    }
    false
}

// Whether a step has the needed columns of its atom in key or fetched.
fn has_needed(block: &Normal, accesses: &[Access], step: &DStep) -> bool
    requires ids { EachIdOnce accesses.now }
    requires live { IsTrue (is_live accesses.now step.now.access) }
    ensures { result ≡ holds_needed block.now (use_of accesses.now step.now) }
{
    match access_with(accesses, step.access) {
        Some(access) => {
            let found = UseAt {
                atom: step.atom,
                access,
            };
            holds_needed(block, &found)
        }
        None => unreachable!(),
    }
}

// Whether one of some steps is on an atom and has its needed columns in key or fetched.
fn is_served_by(block: &Normal, accesses: &[Access], steps: &[DStep], atom: u16) -> bool
    requires ids { EachIdOnce accesses.now }
    requires live { All (λ s. IsTrue (is_live accesses.now s.access)) steps.now }
    ensures { result ≡ is_served_by block.now accesses.now steps.now atom }
{
    for step in steps {
        if step.atom == atom {
            if has_needed(block, accesses, step) {
                return true;
            }
        }
    }
    false
}

// Adds for each atom in order that none of the steps serves the best use that serves it.
fn serve_atoms(
    steps: &mut List<DStep>,
    set: &mut [bool],
    block: &Normal,
    accesses: &[Access],
    uses: &[UseAt<'_>],
) -> Result<(), NoMemory>
    requires atoms { length block.now.atoms < 65536 }
    requires ids { EachIdOnce accesses.now }
    requires uses { map as_use uses.now ≡ uses_in block.now accesses.now }
    requires live { All (λ s. IsTrue (is_live accesses.now s.access)) steps.old }
    ensures { OnOk result (steps.new
        ≡ steps.old ++ serving_steps block.now accesses.now steps.old set.old (atoms_of block.now)) }
{
    let first = steps.len();
    for atom in 0..block.atoms.len() as u16 {
        if !is_served_by(block, accesses, &steps.as_slice()[..first], atom) {
            if let Some(found) = best_serving(block, uses, set, atom) {
                take_step(steps, set, block, found)?;
            }
        }
    }
    Ok(())
}

// Adds the steps of `greedy`, where the uses that may come next stand in a queue. False where the constraints don't cover
// the block from the queue's set.
fn add_from_queue(
    steps: &mut List<DStep>,
    block: &Normal,
    accesses: &[Access],
    candidates: &mut Candidates<'_>,
) -> Result<bool, NoMemory>
    requires ranges { ClassesInRange block.now }
    requires atoms { length block.now.atoms < 65536 }
    requires needed { length block.now.needed ≤ 65536 }
    requires ids { EachIdOnce accesses.now }
    requires are { AreCandidates block.now candidates.old }
    requires uses { map as_use candidates.old.keys.uses ≡ uses_in block.now accesses.now }
    requires steps { steps.old ≡ [] }
    ensures { IfOk result (λ whole. MatchBool whole
        (greedy_steps block.now accesses.now candidates.old.keys.set.items ≡ Some steps.new)
        (greedy_steps block.now accesses.now candidates.old.keys.set.items ≡ None)) }
{
    if !add_steps(steps, block, candidates)? {
        return Ok(false);
    }
    let keys = &mut candidates.keys;
    serve_atoms(steps, &mut keys.set, block, accesses, keys.uses.as_slice())?;
    Ok(true)
}

// The steps of `greedy`, with the uses that may come next in a queue.
fn greedy_by_queue(
    alloc: Global,
    accesses: &List<Access>,
    block: &Normal,
    start: &[bool],
) -> Result<Option<List<DStep>>, NoMemory>
    requires ranges { ClassesInRange block.now }
    requires classes { length start.now ≡ block.now.count }
    requires atoms { length block.now.atoms < 65536 }
    requires needed { length block.now.needed ≤ 65536 }
    requires ids { EachIdOnce accesses.now }
    ensures { IfOk result (λ steps. steps ≡ greedy_steps block.now accesses.now start.now) }
{
    let mut steps = List::from_vec(Vec::with_capacity(alloc, block.atoms.len())?);
    let live = accesses.as_slice();
    let mut candidates = Candidates::of(alloc, block, live, start)?;
    let added = add_from_queue(&mut steps, block, live, &mut candidates);
    drop(candidates);
    if added? { Ok(Some(steps)) } else { Ok(None) }
}

// The steps of `greedy` from few uses, by going over all of them for each. The start itself grows.
fn greedy_among(
    alloc: Global,
    accesses: &[Access],
    block: &Normal,
    uses: &[UseAt<'_>],
    set: &mut [bool],
) -> Result<Option<List<DStep>>, NoMemory>
    requires atoms { length block.now.atoms < 65536 }
    requires needed { length block.now.needed ≤ 65536 }
    requires ids { EachIdOnce accesses.now }
    requires uses { map as_use uses.now ≡ uses_in block.now accesses.now }
    ensures { IfOk result (λ steps. steps ≡ greedy_steps block.now accesses.now set.old) }
{
    let mut steps = List::from_vec(Vec::with_capacity(alloc, block.atoms.len())?);
    if !add_best(&mut steps, set, block, accesses, uses)? {
        return Ok(None);
    }
    serve_atoms(&mut steps, set, block, accesses, uses)?;
    Ok(Some(steps))
}

// The steps of a derivation from a start set of classes: those that add classes, and then those that serve atoms.
// Nothing where the constraints don't cover the block from there. With few uses the start itself grows; a queue copies it.
fn greedy(
    alloc: Global,
    accesses: &List<Access>,
    block: &Normal,
    set: &mut [bool],
) -> Result<Option<List<DStep>>, NoMemory>
    requires ranges { ClassesInRange block.now }
    requires classes { length set.old ≡ block.now.count }
    requires atoms { length block.now.atoms < 65536 }
    requires needed { length block.now.needed ≤ 65536 }
    requires ids { EachIdOnce accesses.now }
    ensures { IfOk result (λ steps. steps ≡ greedy_steps block.now accesses.now set.old) }
{
    let live = accesses.as_slice();
    let Some(access) = live.first() else {
        return greedy_by_queue(alloc, accesses, block, set);
    };
    let mut room = [UseAt { atom: 0, access }; FEW_USES];
    match uses_within(block, live, &mut room) {
        Some(count) => greedy_among(alloc, live, block, &room[..count], set),
        None => greedy_by_queue(alloc, accesses, block, set),
    }
}

/// The derivation of a block, guided or not. Nothing where the constraints don't cover it so.
pub fn steps_if_covered(
    alloc: Global,
    accesses: &List<Access>,
    block: &Normal,
    guided: bool,
) -> Result<Option<List<DStep>>, NoMemory>
    requires ranges { ClassesInRange block.now }
    requires atoms { length block.now.atoms < 65536 }
    requires needed { length block.now.needed ≤ 65536 }
    requires ids { EachIdOnce accesses.now }
    ensures { IfOk result (λ steps. steps ≡ derivation block.now accesses.now (start_classes block.now guided)) }
{
    let mut set = start_of(alloc, block, guided)?;
    match greedy(alloc, accesses, block, &mut set)? {
        Some(steps) => {
            let steps = needed_steps(alloc, accesses.as_slice(), block, guided, steps)?;
            Ok(Some(steps))
        }
        None => Ok(None),
    }
}

/// Why the constraints don't cover a block that has no derivation, guided or not. The start is made anew, as it has grown.
pub fn why_none(
    alloc: Global,
    accesses: &List<Access>,
    block: &Normal,
    guided: bool,
) -> Result<NotCovered, NoMemory>
    requires ranges { ClassesInRange block.now }
    requires atoms { length block.now.atoms < 65536 }
    requires needed { length block.now.needed ≤ 65536 }
    requires none { derivation block.now accesses.now (start_classes block.now guided) ≡ None }
    ensures { IfOk result (λ why. reason block.now accesses.now
        (covered_set block.now accesses.now (start_classes block.now guided)) ≡ Some why) }
{
    let start = start_of(alloc, block, guided)?;
    let covered = close_from(alloc, block, accesses, &start)?;
    match why_not(block, accesses.as_slice(), covered.as_slice()) {
        Some(why) => Ok(why),
        None => unreachable!(),
    }
}

/// The derivation of a block, guided or not, or why its constraints don't cover it so.
pub fn derive_from(
    alloc: Global,
    accesses: &List<Access>,
    block: &Normal,
    guided: bool,
) -> Result<Result<Derivation, NotCovered>, NoMemory>
    requires ranges { ClassesInRange block.now }
    requires atoms { length block.now.atoms < 65536 }
    requires needed { length block.now.needed ≤ 65536 }
    requires ids { EachIdOnce accesses.now }
    ensures { IfOk result (λ found. MatchResult found
        (λ plan. derivation block.now accesses.now (start_classes block.now guided) ≡ Some plan.steps)
        (λ why. (derivation block.now accesses.now (start_classes block.now guided) ≡ None)
        × (reason block.now accesses.now
        (covered_set block.now accesses.now (start_classes block.now guided)) ≡ Some why))) }
{
    match steps_if_covered(alloc, accesses, block, guided)? {
        Some(steps) => Ok(Ok(Derivation { steps })),
        None => Ok(Err(why_none(alloc, accesses, block, guided)?)),
    }
}

/// The derivation of a block by itself, or why its constraints don't cover it.
pub fn derive(
    alloc: Global,
    accesses: &List<Access>,
    block: &Normal,
) -> Result<Result<Derivation, NotCovered>, NoMemory>
    requires ranges { ClassesInRange block.now }
    requires atoms { length block.now.atoms < 65536 }
    requires needed { length block.now.needed ≤ 65536 }
    requires ids { EachIdOnce accesses.now }
    ensures { IfOk result (λ found. MatchResult found
        (λ derivation. own_derivation block.now accesses.now ≡ Some derivation.steps)
        (λ why. (own_derivation block.now accesses.now ≡ None) × (own_reason block.now accesses.now ≡ Some why))) }
{
    derive_from(alloc, accesses, block, false)
}
