// The steps of a derivation before any is dropped.
ghost use Rattle.std.specs.Prelude.{◌≡◌, ◌<◌, ◌&&◌, ◌==◌, ◌∷◌, map, filter, length, nat_lt, IfOk, option_map};
ghost use Rattle.std.specs.List.{best_of};
ghost use Rattle.std.specs.Option.{option_copied};
ghost use Rattle.beas_core.specs.Coverage.{atoms_of, class_at, holds_classes, holds_needed, key_classes, serves, with_classes};
ghost use Rattle.beas_core.specs.Derivations.{access_in, use_of, least_bound, adds_class, step_of, with_use, enabled_uses, adding_steps, serving_steps, is_served_by, bound_by, bound_after, greedy_steps};
ghost use Rattle.beas_core.specs.Groups.{member_columns};
ghost use Rattle.reference_coverage.specs.Turns.{serving_choice};

use crate::access_uses::{AccessUse, access_with, member_columns, uses};
use crate::coverage::{atoms_of, columns_hold_needed, holds_columns, is_covered, serves_atom};
use crate::lists::{append, with_first};
use beas_core::{Access, AccessId, ColumnId, DStep, List, NoMemory, Normal};
use reference_normal_form::{classes_at, with_classes};
use std::alloc::Global;

/// The key columns of the constraint with this id and then its fetched ones, none where there is no such constraint.
#[tactic(auto, unfolding(beas_core::specs::Derivations::access_in))]
pub fn columns_of(
    alloc: Global,
    accesses: &[Access],
    id: AccessId,
) -> Result<List<ColumnId>, NoMemory>
    ensures { IfOk result (λ columns. columns ≡ member_columns (access_in accesses.now id)) }
{
    match access_with(accesses, id) {
        Some(access) => member_columns(alloc, access),
        None => Ok(List::new(alloc)),
    }
}

#[tactic(auto, unfolding(beas_core::specs::Derivations::access_in))]
fn step_holds_needed(normal: &Normal, accesses: &[Access], step: &DStep) -> bool
    ensures { result ≡ holds_needed normal.now (use_of accesses.now step.now) }
{
    match access_with(accesses, step.access) {
        Some(access) => columns_hold_needed(
            normal,
            step.atom,
            access.key.as_slice(),
            access.fetched.as_slice(),
        ),
        None => columns_hold_needed(normal, step.atom, &[], &[]),
    }
}

// The first of those with the least bound.
fn best_of<'a>(first: AccessUse<'a>, others: &[AccessUse<'a>]) -> AccessUse<'a>
    ensures { result ≡ best_of (λ v w. nat_lt v.access.bound w.access.bound) first.entry others.now }
{
    let mut best = first;
    for other in others {
        if other.access.bound < best.access.bound {
            best = other.again();
        }
    }
    best
}

fn least_bound<'a>(found: &[AccessUse<'a>]) -> Option<AccessUse<'a>>
    ensures { result ≡ least_bound found.now }
{
    match found {
        [] => None,
        [first, rest @ ..] => Some(best_of(first.again(), rest)),
    }
}

fn adds_class(normal: &Normal, set: &[bool], chosen: &AccessUse) -> bool
    ensures { result ≡ adds_class normal.now set.now chosen.now }
{
    !holds_columns(normal, set, chosen.atom, chosen.access.fetched.as_slice())
}

fn is_enabled(normal: &Normal, set: &[bool], chosen: &AccessUse) -> bool
    ensures { result ≡ (holds_classes set.now (key_classes normal.now chosen.now) && adds_class normal.now set.now
        chosen.now) }
{
    holds_columns(normal, set, chosen.atom, chosen.access.key.as_slice())
        && adds_class(normal, set, chosen)
}

fn step_of(normal: &Normal, set: &[bool], chosen: &AccessUse) -> DStep
    ensures { result ≡ step_of normal.now set.now chosen.now }
{
    DStep {
        atom: chosen.atom,
        access: chosen.access.id,
        adds: adds_class(normal, set, chosen),
    }
}

fn with_use(
    alloc: Global,
    normal: &Normal,
    set: &[bool],
    chosen: &AccessUse,
) -> Result<List<bool>, NoMemory>
    ensures { IfOk result (λ more. more ≡ with_use normal.now set.now chosen.now) }
{
    let columns = member_columns(alloc, chosen.access)?;
    let classes = classes_at(alloc, normal, chosen.atom, columns.as_slice())?;
    with_classes(alloc, set, &classes)
}

/// The classes that are bound after one step.
pub fn bound_by(
    alloc: Global,
    normal: &Normal,
    accesses: &[Access],
    set: &[bool],
    step: &DStep,
) -> Result<List<bool>, NoMemory>
    ensures set { IfOk result (λ more. more ≡ bound_by normal.now accesses.now set.now step.now) }
    ensures len { IfOk result (λ more. length more ≡ length set.now) }
{
    let columns = columns_of(alloc, accesses, step.access)?;
    let classes = classes_at(alloc, normal, step.atom, columns.as_slice())?;
    with_classes(alloc, set, &classes)
}

/// The classes that are bound after some steps.
pub fn bound_after(
    alloc: Global,
    normal: &Normal,
    accesses: &[Access],
    start: &[bool],
    steps: &[DStep],
) -> Result<List<bool>, NoMemory>
    ensures set { IfOk result (λ set. set ≡ bound_after normal.now accesses.now start.now steps.now) }
    ensures len { IfOk result (λ set. length set ≡ length start.now) }
{
    let mut set = List::from_vec(start.to_vec(alloc)?);
    for step in steps {
        set = bound_by(alloc, normal, accesses, set.as_slice(), step)?;
    }
    Ok(set)
}

fn after_step(
    alloc: Global,
    step: DStep,
    later: Option<List<DStep>>,
) -> Result<Option<List<DStep>>, NoMemory>
    ensures { IfOk result (λ steps. steps ≡ option_map (λ others. step ∷ others) later) }
{
    match later {
        None => Ok(None),
        Some(others) => Ok(Some(with_first(alloc, step, others)?)),
    }
}

fn enabled_among<'a>(
    alloc: Global,
    normal: &Normal,
    set: &[bool],
    found: &[AccessUse<'a>],
) -> Result<Vec<AccessUse<'a>>, NoMemory>
    ensures { IfOk result (λ ready. ready.items ≡ filter (λ u. holds_classes set.now (key_classes normal.now u)
        && adds_class normal.now set.now u) found.now) }
{
    let mut ready = Vec::new(alloc);
    for candidate in found {
        if is_enabled(normal, set, candidate) {
            ready.push(candidate.again())?;
        }
    }
    Ok(ready)
}

fn least_enabled<'a>(
    alloc: Global,
    normal: &Normal,
    accesses: &'a [Access],
    set: &[bool],
) -> Result<Option<AccessUse<'a>>, NoMemory>
    requires { length normal.now.atoms < 65536 }
    ensures { IfOk result (λ chosen. chosen ≡ least_bound (enabled_uses normal.now accesses.now set.now)) }
{
    let found = uses(alloc, normal, accesses)?;
    let ready = enabled_among(alloc, normal, set, found.as_slice())?;
    Ok(least_bound(&ready))
}

#[tactic(auto, using(crate::proofs::Turns::adding_cases))]
fn adding_steps(
    alloc: Global,
    turns: u16,
    normal: &Normal,
    accesses: &[Access],
    set: &[bool],
) -> Result<Option<List<DStep>>, NoMemory>
    requires atoms { length normal.now.atoms < 65536 }
    requires needed { length normal.now.needed < 65536 }
    ensures { IfOk result (λ steps. steps ≡ adding_steps turns normal.now accesses.now set.now) }
{
    if is_covered(alloc, normal, accesses, set)? {
        return Ok(Some(List::new(alloc)));
    }
    if turns == 0 {
        return Ok(None);
    }
    match least_enabled(alloc, normal, accesses, set)? {
        None => Ok(None),
        Some(chosen) => {
            let more = with_use(alloc, normal, set, &chosen)?;
            let later = adding_steps(alloc, turns - 1, normal, accesses, more.as_slice())?;
            let steps = after_step(alloc, step_of(normal, set, &chosen), later)?;
            Ok(steps)
        }
    }
}

/// Whether some step on the atom holds all its needed columns.
pub fn is_served_by(normal: &Normal, accesses: &[Access], steps: &[DStep], atom: u16) -> bool
    ensures { result ≡ is_served_by normal.now accesses.now steps.now atom }
{
    steps.iter().any(|step| step.atom == atom && step_holds_needed(normal, accesses, step))
}

fn serving_among<'a>(
    alloc: Global,
    normal: &Normal,
    set: &[bool],
    found: &[AccessUse<'a>],
    atom: u16,
) -> Result<Vec<AccessUse<'a>>, NoMemory>
    ensures { IfOk result (λ ready. ready.items
        ≡ filter (λ u. (u.atom == atom) && serves normal.now set.now u) found.now) }
{
    let mut ready = Vec::new(alloc);
    for candidate in found {
        if serves_atom(normal, set, candidate, atom) {
            ready.push(candidate.again())?;
        }
    }
    Ok(ready)
}

fn least_serving<'a>(
    alloc: Global,
    normal: &Normal,
    accesses: &'a [Access],
    steps: &[DStep],
    set: &[bool],
    atom: u16,
) -> Result<Option<AccessUse<'a>>, NoMemory>
    requires { length normal.now.atoms < 65536 }
    ensures { IfOk result (λ chosen. chosen ≡ serving_choice normal.now accesses.now steps.now set.now atom) }
{
    if is_served_by(normal, accesses, steps, atom) {
        return Ok(None);
    }
    let found = uses(alloc, normal, accesses)?;
    let ready = serving_among(alloc, normal, set, found.as_slice(), atom)?;
    Ok(least_bound(&ready))
}

#[tactic(auto, using(crate::proofs::Turns::serving_none, crate::proofs::Turns::serving_some))]
fn serving_steps(
    alloc: Global,
    normal: &Normal,
    accesses: &[Access],
    steps: &[DStep],
    set: &[bool],
    atoms: &[u16],
) -> Result<List<DStep>, NoMemory>
    requires { length normal.now.atoms < 65536 }
    ensures { IfOk result (λ more. more ≡ serving_steps normal.now accesses.now steps.now set.now atoms.now) }
{
    match atoms {
        [] => Ok(List::new(alloc)),
        [first, rest @ ..] => {
            match least_serving(alloc, normal, accesses, steps, set, *first)? {
                None => serving_steps(alloc, normal, accesses, steps, set, rest),
                Some(chosen) => {
                    let more = with_use(alloc, normal, set, &chosen)?;
                    let later = serving_steps(
                        alloc,
                        normal,
                        accesses,
                        steps,
                        more.as_slice(),
                        rest,
                    )?;
                    with_first(alloc, step_of(normal, set, &chosen), later)
                }
            }
        }
    }
}

// The steps that serve the atoms that none of some steps serves.
fn serving_after(
    alloc: Global,
    normal: &Normal,
    accesses: &[Access],
    start: &[bool],
    steps: &[DStep],
) -> Result<List<DStep>, NoMemory>
    requires { length normal.now.atoms < 65536 }
    ensures { IfOk result (λ more. more ≡ serving_steps normal.now accesses.now steps.now
        (bound_after normal.now accesses.now start.now steps.now) (atoms_of normal.now)) }
{
    let set = bound_after(alloc, normal, accesses, start, steps)?;
    let atoms = atoms_of(alloc, normal)?;
    serving_steps(alloc, normal, accesses, steps, set.as_slice(), &atoms)
}

/// The steps that are taken before any is dropped, nothing where the block isn't covered.
#[tactic(auto, unfolding(beas_core::specs::Derivations::greedy_steps))]
pub fn greedy_steps(
    alloc: Global,
    normal: &Normal,
    accesses: &[Access],
    start: &[bool],
) -> Result<Option<List<DStep>>, NoMemory>
    requires atoms { length normal.now.atoms < 65536 }
    requires needed { length normal.now.needed < 65536 }
    ensures { IfOk result (λ steps. steps ≡ greedy_steps normal.now accesses.now start.now) }
{
    match adding_steps(alloc, normal.count, normal, accesses, start)? {
        None => Ok(None),
        Some(steps) => {
            let more = serving_after(alloc, normal, accesses, start, steps.as_slice())?;
            Ok(Some(append(steps, more)?))
        }
    }
}
