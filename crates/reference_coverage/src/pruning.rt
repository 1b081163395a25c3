// Steps that a derivation does without: each is tried, from the last to the first.
ghost use Rattle.std.specs.Prelude.{◌≡◌, ◌<◌, ◌≤◌, not, nat_lt, length, IfOk};
ghost use Rattle.beas_core.specs.Coverage.{atoms_of};
ghost use Rattle.std.specs.List.{list_all};
ghost use Rattle.beas_core.specs.Derivations.{access_in, adds_class, adds_rightly, each_step, is_on_table, is_served_by, is_sound, key_is_bound, steps_are_sound, use_of};
ghost use Rattle.beas_core.specs.Pruning.{capped_number, derivation, pruned, pruned_at, pruned_below, shorter, with_adds, without};

use crate::access_uses::access_with;
use crate::coverage::{holds_columns, some_open};
use crate::derivations::{bound_after, bound_by, greedy_steps, is_served_by};
use crate::lists::with_first;
use crate::numbers::announced_number;
use beas_core::{Access, AccessId, DStep, List, NoMemory, Normal};
use std::alloc::Global;

#[tactic(auto, unfolding(beas_core::specs::Derivations::access_in))]
fn table_of(accesses: &[Access], id: AccessId) -> u32
    ensures { result ≡ (access_in accesses.now id).table.0 }
{
    match access_with(accesses, id) {
        Some(access) => access.table.0,
        None => 0,
    }
}

fn is_on_table(normal: &Normal, accesses: &[Access], step: &DStep) -> bool
    ensures { result ≡ is_on_table normal.now accesses.now step.now }
{
    match normal.atoms.as_slice().get(usize::from(step.atom)) {
        Some(atom) => atom.table.0 == table_of(accesses, step.access),
        None => false,
    }
}

#[tactic(auto, unfolding(beas_core::specs::Derivations::access_in))]
fn key_is_bound(normal: &Normal, accesses: &[Access], set: &[bool], step: &DStep) -> bool
    ensures { result ≡ key_is_bound normal.now accesses.now set.now step.now }
{
    match access_with(accesses, step.access) {
        Some(access) => holds_columns(normal, set, step.atom, access.key.as_slice()),
        None => true,
    }
}

#[tactic(auto, unfolding(beas_core::specs::Derivations::access_in))]
fn adds_class(normal: &Normal, accesses: &[Access], set: &[bool], step: &DStep) -> bool
    ensures { result ≡ adds_class normal.now set.now (use_of accesses.now step.now) }
{
    match access_with(accesses, step.access) {
        Some(access) => !holds_columns(normal, set, step.atom, access.fetched.as_slice()),
        None => false,
    }
}

fn adds_rightly(normal: &Normal, accesses: &[Access], set: &[bool], step: &DStep) -> bool
    ensures { result ≡ adds_rightly normal.now accesses.now set.now step.now }
{
    let adds = adds_class(normal, accesses, set, step);
    if step.adds { adds } else { !adds }
}

fn keys_are_bound(
    alloc: Global,
    normal: &Normal,
    accesses: &[Access],
    set: &[bool],
    steps: &[DStep],
) -> Result<bool, NoMemory>
    ensures { IfOk result (λ bound. bound
        ≡ each_step normal.now accesses.now (key_is_bound normal.now accesses.now) set.now steps.now) }
{
    match steps {
        [] => Ok(true),
        [first, rest @ ..] => {
            let more = bound_by(alloc, normal, accesses, set, first)?;
            let later = keys_are_bound(alloc, normal, accesses, more.as_slice(), rest)?;
            Ok(key_is_bound(normal, accesses, set, first) && later)
        }
    }
}

fn all_add_rightly(
    alloc: Global,
    normal: &Normal,
    accesses: &[Access],
    set: &[bool],
    steps: &[DStep],
) -> Result<bool, NoMemory>
    ensures { IfOk result (λ right. right
        ≡ each_step normal.now accesses.now (adds_rightly normal.now accesses.now) set.now steps.now) }
{
    match steps {
        [] => Ok(true),
        [first, rest @ ..] => {
            let more = bound_by(alloc, normal, accesses, set, first)?;
            let later = all_add_rightly(alloc, normal, accesses, more.as_slice(), rest)?;
            Ok(adds_rightly(normal, accesses, set, first) && later)
        }
    }
}

fn are_on_tables(normal: &Normal, accesses: &[Access], steps: &[DStep]) -> bool
    ensures { result ≡ list_all (is_on_table normal.now accesses.now) steps.now }
{
    steps.iter().all(|step| is_on_table(normal, accesses, step))
}

fn steps_are_sound(
    alloc: Global,
    normal: &Normal,
    accesses: &[Access],
    start: &[bool],
    steps: &[DStep],
) -> Result<bool, NoMemory>
    ensures { IfOk result (λ sound. sound ≡ steps_are_sound normal.now accesses.now start.now steps.now) }
{
    let on_tables = are_on_tables(normal, accesses, steps);
    let bound = keys_are_bound(alloc, normal, accesses, start, steps)?;
    let right = all_add_rightly(alloc, normal, accesses, start, steps)?;
    Ok(on_tables && bound && right)
}

fn all_served_by(normal: &Normal, accesses: &[Access], steps: &[DStep]) -> bool
    requires { length normal.now.atoms < 65536 }
    ensures { result ≡ list_all (is_served_by normal.now accesses.now steps.now) (atoms_of normal.now) }
{
    (0..normal.atoms.len() as u16).all(|atom| is_served_by(normal, accesses, steps, atom))
}

fn is_sound(
    alloc: Global,
    normal: &Normal,
    accesses: &[Access],
    start: &[bool],
    steps: &[DStep],
) -> Result<bool, NoMemory>
    requires atoms { length normal.now.atoms < 65536 }
    requires needed { length normal.now.needed < 65536 }
    ensures { IfOk result (λ sound. sound ≡ is_sound normal.now accesses.now start.now steps.now) }
{
    let sound = steps_are_sound(alloc, normal, accesses, start, steps)?;
    let set = bound_after(alloc, normal, accesses, start, steps)?;
    let open = some_open(alloc, normal, set.as_slice())?;
    let served = all_served_by(normal, accesses, steps);
    Ok(sound && !open && served)
}

// Nothing stands for a number past 2^128 - 1, so two that are past it are equal.
fn costs_no_more(accesses: &[Access], less: &[DStep], steps: &[DStep]) -> bool
    ensures { result ≡ not (nat_lt (capped_number accesses.now steps.now) (capped_number accesses.now less.now)) }
{
    match announced_number(accesses, 1, steps) {
        None => true,
        Some(most) => match announced_number(accesses, 1, less) {
            None => false,
            Some(number) => number <= most,
        },
    }
}

fn with_adds(
    alloc: Global,
    normal: &Normal,
    accesses: &[Access],
    set: &[bool],
    steps: &[DStep],
) -> Result<List<DStep>, NoMemory>
    ensures steps { IfOk result (λ anew. anew ≡ with_adds normal.now accesses.now set.now steps.now) }
    ensures len { IfOk result (λ anew. length anew ≡ length steps.now) }
{
    match steps {
        [] => Ok(List::new(alloc)),
        [first, rest @ ..] => {
            let step = DStep {
                atom: first.atom,
                access: first.access,
                adds: adds_class(normal, accesses, set, first),
            };
            let more = bound_by(alloc, normal, accesses, set, first)?;
            let later = with_adds(alloc, normal, accesses, more.as_slice(), rest)?;
            with_first(alloc, step, later)
        }
    }
}

fn without(alloc: Global, place: usize, steps: &[DStep]) -> Result<List<DStep>, NoMemory>
    requires { place < length steps.now }
    ensures steps { IfOk result (λ less. less ≡ without place steps.now) }
    ensures len { IfOk result (λ less. place ≤ length less) }
{
    let mut less = Vec::from_slice(alloc, &steps[..place])?;
    less.extend_from_slice(&steps[place + 1..])?;
    Ok(List::from_vec(less))
}

fn shorter(
    alloc: Global,
    normal: &Normal,
    accesses: &[Access],
    start: &[bool],
    place: usize,
    steps: &[DStep],
) -> Result<List<DStep>, NoMemory>
    requires { place < length steps.now }
    ensures steps { IfOk result (λ less. less ≡ shorter normal.now accesses.now start.now place steps.now) }
    ensures len { IfOk result (λ less. place ≤ length less) }
{
    let less = without(alloc, place, steps)?;
    with_adds(alloc, normal, accesses, start, less.as_slice())
}

fn pruned_at(
    alloc: Global,
    normal: &Normal,
    accesses: &[Access],
    start: &[bool],
    place: usize,
    steps: List<DStep>,
) -> Result<List<DStep>, NoMemory>
    requires atoms { length normal.now.atoms < 65536 }
    requires needed { length normal.now.needed < 65536 }
    requires place { place < length steps }
    ensures steps { IfOk result (λ left. left ≡ pruned_at normal.now accesses.now start.now place steps) }
    ensures len { IfOk result (λ left. place ≤ length left) }
{
    let less = shorter(alloc, normal, accesses, start, place, steps.as_slice())?;
    let sound = is_sound(alloc, normal, accesses, start, less.as_slice())?;
    if sound && costs_no_more(accesses, less.as_slice(), steps.as_slice()) {
        Ok(less)
    } else {
        Ok(steps)
    }
}

#[tactic(auto, using(crate::proofs::PruningFacts::last_tried))]
fn pruned_below(
    alloc: Global,
    normal: &Normal,
    accesses: &[Access],
    start: &[bool],
    count: usize,
    steps: List<DStep>,
) -> Result<List<DStep>, NoMemory>
    requires atoms { length normal.now.atoms < 65536 }
    requires needed { length normal.now.needed < 65536 }
    requires count { count ≤ length steps }
    ensures { IfOk result (λ left. left ≡ pruned_below normal.now accesses.now start.now count steps) }
{
    if count == 0 {
        return Ok(steps);
    }
    let left = pruned_at(alloc, normal, accesses, start, count - 1, steps)?;
    let all = pruned_below(alloc, normal, accesses, start, count - 1, left)?;
    Ok(all)
}

/// The canonical derivation from a start set of classes, nothing where the block isn't covered.
#[tactic(auto, unfolding(beas_core::specs::Pruning::derivation))]
pub fn derivation(
    alloc: Global,
    normal: &Normal,
    accesses: &[Access],
    start: &[bool],
) -> Result<Option<List<DStep>>, NoMemory>
    requires atoms { length normal.now.atoms < 65536 }
    requires needed { length normal.now.needed < 65536 }
    ensures { IfOk result (λ steps. steps ≡ derivation normal.now accesses.now start.now) }
{
    match greedy_steps(alloc, normal, accesses, start)? {
        None => Ok(None),
        Some(steps) => {
            let count = steps.len();
            let left = pruned_below(alloc, normal, accesses, start, count, steps)?;
            Ok(Some(left))
        }
    }
}
