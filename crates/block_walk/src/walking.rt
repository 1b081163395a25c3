// The walk of a block, depth first.
ghost use Rattle.std.specs.Prelude.{◌≡◌, ◌==◌, ◌&&◌, ◌<◌, ◌≤◌, ◌+◌, ◌++◌, ◌∷◌, [], length, map, All, IfOk, IsTrue, OnErr, OnOk, is_some};
ghost use Rattle.std.specs.Option.{option_copied};
ghost use Rattle.beas_core.specs.Coverage.{ClassesInRange, ConstantsInRange, holds_classes, key_classes, start_classes};
ghost use Rattle.beas_core.specs.Derivations.{access_in, is_live, IsSound};
ghost use Rattle.beas_core.specs.Valuations.{answers_of, classes_in, output_row};
ghost use Rattle.beas_core.proofs.Sets.{SameMembers};
ghost use Rattle.beas_core.specs.Guides.{GuideFits};
ghost use Rattle.plan_ops.specs.Over.{set_of};
ghost use Rattle.plan_ops.specs.Sieves.{sieved};
ghost use Rattle.plan_ops.specs.Stages.{IsPair, IsStage, bound_with, joined_row, key_by, next_by, set_before, use_at};
ghost use Rattle.block_walk.specs.Worlds.{AgreesWith, World, world};
ghost use Rattle.block_walk.specs.Routes.{IsSoundIn, route};
ghost use Rattle.block_walk.specs.Walks.{Begins, HasEnded, IsMadeFor, IsTidy, IsTidyForAll, Stands, StandsForAll, children, classes_at, fetched_in};
ghost use Rattle.block_walk.specs.Entries.{AreKept, IsKnown, entries_in, entry_of, kept_of};
ghost use Rattle.block_walk.specs.Stacks.{IsInside, IsStack, pending_in, pending_of, row_of};
ghost use Rattle.block_walk.specs.Finding.{FindSpent, Finds};
ghost use Rattle.block_walk.specs.Turns.{SpentOnce, GoesOn, TurnIs, VisitCosts, VisitSpent, Visited, probed};

use crate::known::{Found, Known};
use crate::stack::{Stack, StackedValuation};
use beas_core::{
    AccessId, AccessPort, DStep, List, NoMemory, Normal, Row, Steps, Value, sort_distinct,
};
use place_chains::hash_of;
use plan_ops::{
    Stage, is_joined_output, joined_output, key_into, leads, output_of, stage_of, start_block,
};
use std::alloc::Global;
use std::mem;
use std::sync::ledger::Ledger;

/// The walk of a block between two probes.
#[derive(Drop)]
pub struct Walk {
    /// The classes that are bound before the first step, ascending.
    pub first: List<u16>,
    /// What is worked out for the steps that were begun, which are the first ones.
    pub stages: Vec<Stage>,
    /// What the probes found.
    pub known: Known,
    /// The valuations to visit.
    pub pending: Stack,
    /// Room for the key that is looked for, used again from visit to visit.
    pub key: Vec<Value>,
    /// The outputs of the valuations after the last step that were visited; equal ones that follow one another stand once.
    pub through: List<Row>,
}

/// A walk before its first probe, of a block that its guide's answers start where it is guided.
pub fn begin(alloc: Global, block: &Normal, guide: Option<&List<Row>>) -> Result<Walk, NoMemory>
    requires classes { ClassesInRange block.now }
    requires constants { ConstantsInRange block.now }
    requires fits { GuideFits block.now (option_copied guide) }
    ensures fetched { IfOk result (λ walk. fetched_in walk ≡ []) }
    ensures tidy { IfOk result (IsTidyForAll block.now (option_copied guide.entry)) }
    ensures stands { IfOk result (StandsForAll block.now (option_copied guide.entry)) }
{
    let from = start_block(alloc, block, guide)?;
    let pending = Stack::begin(alloc, from.rows)?;
    Ok(Walk {
        first: from.classes,
        stages: Vec::new(alloc),
        known: Known::new(alloc)?,
        pending,
        key: Vec::new(alloc),
        through: List::new(alloc),
    })
}

// Puts the valuations on top that one and the kept tuples of an entry make, which its key has found. Those tuples alone are
// tried that may share the valuation's values.
fn push_children(
    alloc: Global,
    block: &Normal,
    stage: &Stage,
    at: StackedValuation,
    known: &Known,
    place: usize,
    pending: &mut Stack,
) -> Result<(), NoMemory>
    requires stage { IsStage block.now stage.now }
    requires known { IsKnown known.now }
    requires place { place < length (entries_in known.now) }
    requires stack { IsStack pending.old }
    requires inside { IsInside pending.old.values.items at }
    requires pairs { All (IsPair block.now stage.now (row_of pending.old at)) (kept_of known.now place) }
    requires room { at.step + 1 < 18446744073709551616 }
    ensures stack { OnOk result (IsStack pending.new) }
    ensures pending { OnOk result (pending_in pending.new ≡ pending_in pending.old
        ++ children (pending_of pending.old.values.items at)
        (next_by block.now (use_at stage.now) (set_before block.now stage.now) (row_of pending.old at)
        (kept_of known.now place))) }
{
    let mut fitting = known.fitting(place, &stage.join.shared, pending.row(at));
    'tuples: while let Some(i) = fitting.next() {
        let tuple = known.tuple(place, i);
        if leads(block, stage, pending.row(at), tuple) {
            pending.push_child(alloc, block, stage, at, tuple)?;
        }
    }
    Ok(())
}

// Adds the output of the valuation after the last step that one before it and a tuple make, unless it is that of the
// last one that was added: then nothing is made, so that many valuations with few outputs take little.
fn push_output_once(
    alloc: Global,
    block: &Normal,
    stage: &Stage,
    row: &[Value],
    tuple: &[Value],
    through: &mut List<Row>,
) -> Result<(), NoMemory>
    requires stage { IsStage block.now stage.now }
    requires pair { IsPair block.now stage.now row.now tuple.now }
    ensures { OnOk result (SameMembers through.new (through.old
        ++ output_row block.now (bound_with block.now (use_at stage.now) (set_before block.now stage.now))
        (joined_row block.now (use_at stage.now) (set_before block.now stage.now) row.now tuple.now) ∷ [])) }
{
    let rows = through.as_slice();
    let count = rows.len();
    if count > 0 && is_joined_output(stage, row, tuple, rows[count - 1].as_slice()) {
        return Ok(());
    }
    let output = joined_output(alloc, stage, row, tuple)?;
    through.push(output)?;
    Ok(())
}

// Adds the outputs of the valuations after the last step that one before it and the kept tuples of an entry make. Where the step is
// settled, all of them give the same output, so that no tuple is looked at after the first one that leads on.
fn push_outputs(
    alloc: Global,
    block: &Normal,
    stage: &Stage,
    row: &[Value],
    known: &Known,
    place: usize,
    through: &mut List<Row>,
) -> Result<(), NoMemory>
    requires stage { IsStage block.now stage.now }
    requires known { IsKnown known.now }
    requires place { place < length (entries_in known.now) }
    requires pairs { All (IsPair block.now stage.now row.now) (kept_of known.now place) }
    ensures { OnOk result (SameMembers through.new (through.old
        ++ map (output_row block.now (bound_with block.now (use_at stage.now) (set_before block.now stage.now)))
        (next_by block.now (use_at stage.now) (set_before block.now stage.now) row.now (kept_of known.now place)))) }
{
    let mut fitting = known.fitting(place, &stage.join.shared, row);
    'tuples: while let Some(i) = fitting.next() {
        let tuple = known.tuple(place, i);
        if leads(block, stage, row, tuple) {
            push_output_once(alloc, block, stage, row, tuple, through)?;
            if stage.settled {
                return Ok(());
            }
        }
    }
    Ok(())
}

// Goes on with the tuples that the key of a valuation finds, in a derivation of so many steps: the last step makes
// outputs alone.
#[inline(always)]
fn go_on(
    alloc: Global,
    block: &Normal,
    stage: &Stage,
    at: StackedValuation,
    count: usize,
    known: &Known,
    place: usize,
    pending: &mut Stack,
    through: &mut List<Row>,
) -> Result<(), NoMemory>
    requires stage { IsStage block.now stage.now }
    requires known { IsKnown known.now }
    requires place { place < length (entries_in known.now) }
    requires stack { IsStack pending.old }
    requires inside { IsInside pending.old.values.items at }
    requires pairs { All (IsPair block.now stage.now (row_of pending.old at)) (entry_of known.now place).1 }
    requires kept { let is_last = at.step + 1 == count in
        kept_of known.now place ≡ sieved block.now stage.now.sieve (is_last && stage.now.sieve.one) (entry_of known.now place).1 }
    requires below { at.step < count }
    requires room { at.step + 1 < 18446744073709551616 }
    ensures stack { OnOk result (IsStack pending.new) }
    ensures goes_on { let next = next_by block.now (use_at stage.now) (set_before block.now stage.now)
        (row_of pending.old at) (entry_of known.now place).1 in
        OnOk result (GoesOn count (pending_of pending.old.values.items at) next
        (map (output_row block.now (bound_with block.now (use_at stage.now) (set_before block.now stage.now))) next)
        (pending_in pending.old) (pending_in pending.new) through.old through.new) }
{
    if at.step + 1 < count {
        push_children(alloc, block, stage, at, known, place, pending)?;
        return Ok(());
    }
    push_outputs(alloc, block, stage, pending.row(at), known, place, through)?;
    Ok(())
}

// The classes that are bound after the steps that were begun.
fn classes_so_far<'a>(first: &'a List<u16>, stages: &'a [Stage]) -> &'a List<u16>
    ensures { result.now ≡ classes_at first.now stages.now (length stages.now) }
{
    let count = stages.len();
    if count == 0 {
        first
    } else {
        &stages[count - 1].join.classes
    }
}

// Begins the next step. It stands by itself, so that visits of steps that were begun make no room for a stage.
#[inline(never)]
fn begin_next<P: AccessPort>(
    alloc: Global,
    port: &P,
    block: &Normal,
    step: &DStep,
    first: &List<u16>,
    stages: &mut Vec<Stage>,
) -> Result<(), NoMemory>
    requires live { IsTrue (is_live (P.accesses port.now) step.now.access) }
    requires ranges { ClassesInRange block.now }
    requires classes { let classes = classes_at first.now stages.old.items (length stages.old.items) in
        classes ≡ classes_in (set_of block.now classes) }
    requires key { IsTrue (holds_classes (set_of block.now (classes_at first.now stages.old.items (length stages.old.items)))
        (key_classes block.now (record { atom = step.now.atom; access = access_in (P.accesses port.now) step.now.access }))) }
    ensures there { OnOk result (length stages.old.items < length stages.new.items) }
    ensures begins { OnOk result (Begins (IsMadeFor block.now step.now.atom (access_in (P.accesses port.now) step.now.access)
        (classes_at first.now stages.old.items (length stages.old.items)))
        (length stages.old.items) stages.old.items stages.new.items) }
{
    let classes = classes_so_far(first, stages.as_slice());
    let access = port.access(step.access);
    let stage = stage_of(alloc, block, step.atom, access, classes)?;
    stages.push(stage)?;
    Ok(())
}

// Begins the step with this number, unless it was begun. A step that wasn't is the next one.
#[inline(always)]
fn begin_step<P: AccessPort>(
    alloc: Global,
    port: &P,
    block: &Normal,
    step: &DStep,
    number: usize,
    first: &List<u16>,
    stages: &mut Vec<Stage>,
) -> Result<(), NoMemory>
    requires live { IsTrue (is_live (P.accesses port.now) step.now.access) }
    requires ranges { ClassesInRange block.now }
    requires next { number ≤ length stages.old.items }
    requires classes { let classes = classes_at first.now stages.old.items (length stages.old.items) in
        classes ≡ classes_in (set_of block.now classes) }
    requires key { IsTrue (holds_classes (set_of block.now (classes_at first.now stages.old.items number))
        (key_classes block.now (record { atom = step.now.atom; access = access_in (P.accesses port.now) step.now.access }))) }
    ensures there { OnOk result (number < length stages.new.items) }
    ensures begins { OnOk result (Begins (IsMadeFor block.now step.now.atom (access_in (P.accesses port.now) step.now.access)
        (classes_at first.now stages.old.items (length stages.old.items))) number stages.old.items stages.new.items) }
{
    if number < stages.len() {
        return Ok(());
    }
    begin_next(alloc, port, block, step, first, stages)?;
    Ok(())
}

// Finds the entry of the key that a valuation gives to a step. The key is probed where it wasn't yet. `is_last` says that no step
// comes after this one: then one tuple of the key may be enough.
#[inline(always)]
fn entry_for<P: AccessPort, L: Ledger>(
    alloc: Global,
    port: &P,
    block: &Normal,
    id: AccessId,
    stage: &Stage,
    is_last: bool,
    at: StackedValuation,
    pending: &Stack,
    known: &mut Known,
    key: &mut Vec<Value>,
    steps: &mut Steps<L>,
) -> Result<Found, NoMemory>
    requires live { IsTrue (is_live (P.accesses port.now) id) }
    requires access { stage.now.access.value ≡ access_in (P.accesses port.now) id }
    requires stage { IsStage block.now stage.now }
    requires wide { length (row_of pending.now at) ≡ length stage.now.from.value }
    requires inside { IsInside pending.now.values.items at }
    requires known { IsKnown known.old }
    requires kept { AreKept block.now stage.now is_last known.old at.step }
    ensures known { OnOk result (IsKnown known.new) }
    ensures kept { OnOk result (AreKept block.now stage.now is_last known.new at.step) }
    ensures found { IfOk result (λ found. Finds (P.rows port.now) (P.accesses port.now) id at.step
        (key_by block.now (use_at stage.now) (set_before block.now stage.now) (row_of pending.now at))
        found known.old known.new steps.old steps.new) }
    ensures spent { OnErr result (FindSpent (P.rows port.now) (P.accesses port.now) id at.step
        (key_by block.now (use_at stage.now) (set_before block.now stage.now) (row_of pending.now at))
        known.old steps.old steps.new) }
{
    key_into(alloc, stage, pending.row(at), key)?;
    let hash = hash_of(at.step, key);
    if let Some(place) = known.find(at.step, key, hash) {
        // Where several valuations give one key, those that share values with its tuples are joined by them.
        known.index(alloc, place, stage.join.shared.tuple())?;
        return Ok(Found { place, reads: None });
    }
    let one = is_last & stage.sieve.one;
    known.fetch(
        alloc, port, block, id, stage, one, at.step, key, hash, steps,
    )
}

// Visits a valuation before a step: those that it leads to go on top. Gives how many reads the probe took that it made.
fn visit<P: AccessPort, L: Ledger>(
    alloc: Global,
    port: &P,
    block: &Normal,
    guide: Option<&List<Row>>,
    plan: &[DStep],
    walk: &mut Walk,
    at: StackedValuation,
    steps: &mut Steps<L>,
) -> Result<Option<usize>, NoMemory>
    requires ranges { ClassesInRange block.now }
    requires sound { IsSound block.now (P.accesses port.now)
        (start_classes block.now (is_some (option_copied guide))) plan.now }
    requires tidy { IsTidy (route block.now (option_copied guide) plan.now) walk.old }
    requires agrees { AgreesWith (world (P.rows port.now) (P.accesses port.now)) plan.now (fetched_in walk.old) }
    requires step { at.step ≤ length walk.old.stages.items }
    requires below { at.step < length plan.now }
    requires wide { length (row_of walk.old.pending at)
        ≡ length (classes_at walk.old.first walk.old.stages.items at.step) }
    requires inside { IsInside walk.old.pending.values.items at }
    requires room { at.step + 1 < 18446744073709551616 }
    ensures tidy { OnOk result (IsTidy (route block.now (option_copied guide.entry) plan.now) walk.new) }
    ensures visited { IfOk result (λ reads. Visited (world (P.rows port.now) (P.accesses port.now))
        (route block.now (option_copied guide.entry) plan.now) (pending_of walk.old.pending.values.items at)
        (probed reads) walk.old walk.new) }
    ensures cost { IfOk result (λ reads. VisitCosts (world (P.rows port.now) (P.accesses port.now))
        (route block.now (option_copied guide.entry) plan.now) (pending_of walk.old.pending.values.items at)
        reads steps.old steps.new) }
    ensures spent { OnErr result (VisitSpent (world (P.rows port.now) (P.accesses port.now))
        (route block.now (option_copied guide.entry) plan.now) (pending_of walk.old.pending.values.items at)
        walk.old steps.old steps.new) }
{
    let step = &plan[at.step];
    begin_step(
        alloc,
        port,
        block,
        step,
        at.step,
        &walk.first,
        &mut walk.stages,
    )?;
    let stage = &walk.stages[at.step];
    let (pending, known, key) = (&walk.pending, &mut walk.known, &mut walk.key);
    let count = plan.len();
    let is_last = at.step + 1 == count;
    let found = entry_for(
        alloc,
        port,
        block,
        step.access,
        stage,
        is_last,
        at,
        pending,
        known,
        key,
        steps,
    )?;
    go_on(
        alloc,
        block,
        stage,
        at,
        count,
        &walk.known,
        found.place,
        &mut walk.pending,
        &mut walk.through,
    )?;
    Ok(found.reads)
}

// Adds the output of a valuation after the last step.
fn push_output(
    alloc: Global,
    block: &Normal,
    first: &List<u16>,
    stages: &[Stage],
    row: &[Value],
    through: &mut List<Row>,
) -> Result<(), NoMemory>
    requires classes { let classes = classes_at first.now stages.now (length stages.now) in
        classes ≡ classes_in (set_of block.now classes) }
    requires wide { length row.now ≡ length (classes_at first.now stages.now (length stages.now)) }
    ensures { OnOk result (through.new ≡ through.old
        ++ output_row block.now (set_of block.now (classes_at first.now stages.now (length stages.now))) row.now ∷ []) }
{
    let classes = classes_so_far(first, stages);
    let output = output_of(alloc, block, classes.as_slice(), row)?;
    through.push(output)?;
    Ok(())
}

/// Makes the next probe that is due and says how many reads it took. Where none is due it makes none, and says so.
pub fn turn<P: AccessPort, L: Ledger>(
    alloc: Global,
    port: &P,
    block: &Normal,
    guide: Option<&List<Row>>,
    plan: &[DStep],
    walk: &mut Walk,
    steps: &mut Steps<L>,
) -> Result<Option<usize>, NoMemory>
    requires classes { ClassesInRange block.now }
    requires constants { ConstantsInRange block.now }
    requires fits { GuideFits block.now (option_copied guide) }
    requires sound { IsSound block.now (P.accesses port.now)
        (start_classes block.now (is_some (option_copied guide))) plan.now }
    requires tidy { IsTidy (route block.now (option_copied guide) plan.now) walk.old }
    requires stands { Stands (route block.now (option_copied guide) plan.now) walk.old }
    requires agrees { AgreesWith (world (P.rows port.now) (P.accesses port.now)) plan.now (fetched_in walk.old) }

    ensures tidy { OnOk result (IsTidy (route block.now (option_copied guide.entry) plan.now) walk.new) }
    ensures stands { OnOk result (Stands (route block.now (option_copied guide.entry) plan.now) walk.new) }
    ensures turn { IfOk result (λ reads. TurnIs (world (P.rows port.now) (P.accesses port.now))
        (route block.now (option_copied guide.entry) plan.now) reads (fetched_in walk.old) walk.new steps.old steps.new) }
    ensures spent { OnErr result (SpentOnce (world (P.rows port.now) (P.accesses port.now))
        (route block.now (option_copied guide.entry) plan.now) (fetched_in walk.old) steps.old steps.new) }
{
    let count = plan.len();
    'visits: while let Some(at) = walk.pending.pop() {
        if at.step == count {
            push_output(
                alloc,
                block,
                &walk.first,
                &walk.stages,
                walk.pending.row(at),
                &mut walk.through,
            )?;
        } else if let Some(reads) = visit(alloc, port, block, guide, plan, walk, at, steps)? {
            return Ok(Some(reads));
        }
    }
    Ok(None)
}

/// Takes the answers of a block out of its walk, which has ended: of a guided one those that stand in its guide. What was
/// fetched stays.
pub fn answer(
    alloc: Global,
    block: &Normal,
    guide: Option<&List<Row>>,
    plan: &[DStep],
    walk: &mut Walk,
) -> List<Row>
    requires ended { HasEnded walk.old }
    requires stands { Stands (route block.now (option_copied guide) plan.now) walk.old }
    ensures rows { (w : World) → IsSoundIn w (route block.now (option_copied guide.entry) plan.now)
        → AgreesWith w plan.now (fetched_in walk.old)
        → result ≡ answers_of w.rows block.now w.accesses (option_copied guide.entry) plan.now }
    ensures fetched { fetched_in walk.new ≡ fetched_in walk.old }
{
    let rows = mem::replace(&mut walk.through, List::new(alloc));
    List::from_vec(sort_distinct(rows.into_vec()))
}
