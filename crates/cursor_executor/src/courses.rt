// How far the operations of a query have run.
ghost use Rattle.std.specs.Prelude.{◌≡◌, ◌+◌, ◌<◌, ◌++◌, ◌∷◌, [], None, Some, length, slice_get, is_some, IfOk, IsTrue, OnErr, OnOk};
ghost use Rattle.std.specs.Option.{option_copied};
ghost use Rattle.beas_core.specs.Coverage.{ClassesInRange, ConstantsInRange, start_classes};
ghost use Rattle.beas_core.specs.Derivations.{IsSound};
ghost use Rattle.beas_core.specs.Fits.{PreparedIsWellFormed};
ghost use Rattle.beas_core.specs.Full.{set_union, set_difference};
ghost use Rattle.beas_core.specs.Guides.{GuideFits};
ghost use Rattle.block_walk.specs.Turns.{SpentOnce};
ghost use Rattle.block_walk.specs.Routes.{route};
ghost use Rattle.block_walk.specs.Worlds.{AgreesWith, world};
ghost use Rattle.cursor_executor.specs.Courses.{HasTurned, IsCourse, StandsOn, fetched_by, walk_fetched};
ghost use Rattle.cursor_executor.specs.Fetching.{AllAgree, IsWorld, steps_of};
ghost use Rattle.cursor_executor.specs.Operations.{IsJoined, LastTwo, guide_at, normal_at};
ghost use Rattle.cursor_executor.specs.declared.operations.Operation.TheVariants.{Block};
ghost use Rattle.cursor_executor.specs.Turns.{QuerySpent, Stepped, Went};

use crate::operations::{Operation, operations_of};
use beas_core::{
    AccessPort, DStep, List, NoMemory, Normal, Prepared, Row, Steps, recall_bound, recall_length,
};
use block_walk::{Walk, answer, begin, turn};
use plan_ops::{subtract, unite};
use std::alloc::Global;
use std::sync::ledger::Ledger;

/// How far the operations of a query have run, between two probes.
#[derive(Drop)]
pub struct Course {
    /// All operations.
    pub operations: List<Operation>,
    /// The operation that is under way, or comes next.
    pub position: usize,
    /// The answers that are found and not joined yet.
    pub stack: Vec<List<Row>>,
    /// The walks of the finished blocks, from left to right.
    pub finished: List<Walk>,
    /// The walk of the block that is under way.
    pub walk: Option<Walk>,
}

/// The course of a query before its first operation.
pub fn course_of(alloc: Global, prepared: &Prepared) -> Result<Course, NoMemory>
    requires formed { PreparedIsWellFormed prepared.now }
    ensures course { IfOk result (IsCourse prepared.now) }
    ensures fetched { IfOk result (λ course. fetched_by course ≡ []) }
{
    // A course is one of a query whose announced number fits 128 bits.
    recall_bound(prepared);
    let operations = operations_of(alloc, prepared)?;
    Ok(Course {
        operations,
        position: 0,
        stack: Vec::new(alloc),
        finished: List::new(alloc),
        walk: None,
    })
}

// The normal form of the block with this number.
fn block_at(prepared: &Prepared, at: usize) -> &Normal
    requires { at < length prepared.now.normals }
    ensures { result.now ≡ normal_at prepared.now at }
{
    &prepared.normals.as_slice()[at]
}

// The steps of its derivation.
fn plan_at(prepared: &Prepared, at: usize) -> &[DStep]
    requires { at < length prepared.now.derivations }
    ensures { result.now ≡ steps_of prepared.now at }
{
    let derivation = &prepared.derivations.as_slice()[at];
    derivation.steps.as_slice()
}

// The answers that guide a block.
fn guide_in(stack: &[List<Row>], place: Option<usize>) -> Option<&List<Row>>
    ensures { option_copied result ≡ guide_at stack.now place }
{
    match place {
        Some(place) => stack.get(place),
        None => None,
    }
}

// The first turn of a block's walk. It stands by itself, so that later turns make no room for a walk.
#[inline(never)]
fn first_turn<P: AccessPort, L: Ledger>(
    alloc: Global,
    port: &P,
    block: &Normal,
    guide: Option<&List<Row>>,
    plan: &[DStep],
    walk: &mut Option<Walk>,
    steps: &mut Steps<L>,
) -> Result<Option<usize>, NoMemory>
    requires classes { ClassesInRange block.now }
    requires constants { ConstantsInRange block.now }
    requires fits { GuideFits block.now (option_copied guide) }
    requires sound { IsSound block.now (P.accesses port.now)
        (start_classes block.now (is_some (option_copied guide))) plan.now }
    requires none { walk.old ≡ None }

    ensures turned { IfOk result (λ reads. HasTurned (world (P.rows port.now) (P.accesses port.now))
        (route block.now (option_copied guide.entry) plan.now) reads walk.old walk.new steps.old steps.new) }
    ensures spent { OnErr result (SpentOnce (world (P.rows port.now) (P.accesses port.now))
        (route block.now (option_copied guide.entry) plan.now) (walk_fetched walk.old) steps.old steps.new) }
{
    let mut begun = begin(alloc, block, guide)?;
    match turn(alloc, port, block, guide, plan, &mut begun, steps) {
        Ok(reads) => {
            *walk = Some(begun);
            Ok(reads)
        }
        Err(NoMemory) => {
            drop(begun);
            Err(NoMemory)
        }
    }
}

// One turn of a block's walk, which is begun where it isn't yet. Says how many reads its probe took. A walk that is begun
// stays where it is, since moving it takes longer than much of a turn.
fn block_turn<P: AccessPort, L: Ledger>(
    alloc: Global,
    port: &P,
    block: &Normal,
    guide: Option<&List<Row>>,
    plan: &[DStep],
    walk: &mut Option<Walk>,
    steps: &mut Steps<L>,
) -> Result<Option<usize>, NoMemory>
    requires classes { ClassesInRange block.now }
    requires constants { ConstantsInRange block.now }
    requires fits { GuideFits block.now (option_copied guide) }
    requires sound { IsSound block.now (P.accesses port.now)
        (start_classes block.now (is_some (option_copied guide))) plan.now }
    requires walk { StandsOn (route block.now (option_copied guide) plan.now) walk.old }
    requires agrees { AgreesWith (world (P.rows port.now) (P.accesses port.now)) plan.now (walk_fetched walk.old) }

    ensures turned { IfOk result (λ reads. HasTurned (world (P.rows port.now) (P.accesses port.now))
        (route block.now (option_copied guide.entry) plan.now) reads walk.old walk.new steps.old steps.new) }
    ensures spent { OnErr result (SpentOnce (world (P.rows port.now) (P.accesses port.now))
        (route block.now (option_copied guide.entry) plan.now) (walk_fetched walk.old) steps.old steps.new) }
{
    match walk {
        Some(walk) => turn(alloc, port, block, guide, plan, walk, steps),
        None => first_turn(alloc, port, block, guide, plan, walk, steps),
    }
}

// Goes on to the next operation.
fn go_on(course: &mut Course)
    requires { course.old.position < length course.old.operations }
    ensures operations { course.new.operations ≡ course.old.operations }
    ensures position { course.new.position ≡ course.old.position + 1 }
    ensures stack { course.new.stack ≡ course.old.stack }
    ensures finished { course.new.finished ≡ course.old.finished }
    ensures walk { course.new.walk ≡ course.old.walk }
{
    // The position is below the number of operations, so that the next one fits.
    recall_length(course.operations.as_slice());
    course.position += 1;
}

// Puts a finished block's answers on the stack, and its walk to the others. It stands by itself, so that turns make no room
// for a walk.
#[inline(never)]
fn finish_block(course: &mut Course, rows: List<Row>) -> Result<(), NoMemory>
    requires position { course.old.position < length course.old.operations }
    requires walk { IsTrue (is_some course.old.walk) }
    ensures operations { course.new.operations ≡ course.old.operations }
    ensures position { OnOk result (course.new.position ≡ course.old.position + 1) }
    ensures stack { OnOk result (course.new.stack.items ≡ course.old.stack.items ++ rows ∷ []) }
    ensures finished { OnOk result ((walk : Walk) → course.old.walk ≡ Some walk
        → course.new.finished ≡ course.old.finished ++ walk ∷ []) }
    ensures walk { course.new.walk ≡ None }
{
    let walk = course.walk.take().unwrap();
    course.finished.push(walk)?;
    course.stack.push(rows)?;
    go_on(course);
    Ok(())
}

// Goes on with a block: by one probe, or to its answers.
fn step_block<P: AccessPort, L: Ledger>(
    alloc: Global,
    port: &P,
    prepared: &Prepared,
    place: Option<usize>,
    course: &mut Course,
    steps: &mut Steps<L>,
) -> Result<Option<usize>, NoMemory>
    requires fits { IsWorld (world (P.rows port.now) (P.accesses port.now)) prepared.now }
    requires course { IsCourse prepared.now course.old }
    requires agrees { AllAgree (world (P.rows port.now) (P.accesses port.now)) prepared.now (fetched_by course.old) }
    requires at { slice_get course.old.operations course.old.position ≡ Some (Block place) }
    ensures course { OnOk result (IsCourse prepared.now course.new) }
    ensures stepped { IfOk result (λ reads. Stepped (world (P.rows port.now) (P.accesses port.now)) prepared.now
        reads course.old course.new steps.old steps.new) }
    ensures spent { OnErr result (QuerySpent (world (P.rows port.now) (P.accesses port.now)) prepared.now
        (fetched_by course.old) steps.old steps.new) }
{
    let at = course.finished.len();
    let block = block_at(prepared, at);
    let plan = plan_at(prepared, at);
    let stack = course.stack.as_slice();
    let guide = guide_in(stack, place);
    let reads = block_turn(alloc, port, block, guide, plan, &mut course.walk, steps)?;
    if reads.is_some() {
        return Ok(reads);
    }
    if let Some(walk) = &mut course.walk {
        let rows = answer(alloc, block, guide, plan, walk);
        finish_block(course, rows)?;
    }
    Ok(None)
}

// Unites the last two answers.
fn unite_last(alloc: Global, stack: &mut Vec<List<Row>>) -> Result<(), NoMemory>
    requires { LastTwo stack.old.items }
    ensures { OnOk result (IsJoined set_union stack.old.items stack.new.items) }
{
    if let (Some(right), Some(left)) = (stack.pop(), stack.pop()) {
        let rows = unite(alloc, left, right)?;
        stack.push(rows)?;
    }
    Ok(())
}

// Subtracts the last answer from the one before it.
fn subtract_last(alloc: Global, stack: &mut Vec<List<Row>>) -> Result<(), NoMemory>
    requires { LastTwo stack.old.items }
    ensures { OnOk result (IsJoined set_difference stack.old.items stack.new.items) }
{
    if let (Some(right), Some(left)) = (stack.pop(), stack.pop()) {
        let rows = subtract(alloc, left, right)?;
        stack.push(rows)?;
    }
    Ok(())
}

// Carries the next operation out. Says how many reads its probe took, where it made one.
fn carry_out<P: AccessPort, L: Ledger>(
    alloc: Global,
    port: &P,
    prepared: &Prepared,
    operation: Operation,
    course: &mut Course,
    steps: &mut Steps<L>,
) -> Result<Option<usize>, NoMemory>
    requires fits { IsWorld (world (P.rows port.now) (P.accesses port.now)) prepared.now }
    requires course { IsCourse prepared.now course.old }
    requires agrees { AllAgree (world (P.rows port.now) (P.accesses port.now)) prepared.now (fetched_by course.old) }
    requires at { slice_get course.old.operations course.old.position ≡ Some operation }
    ensures course { OnOk result (IsCourse prepared.now course.new) }
    ensures stepped { IfOk result (λ reads. Stepped (world (P.rows port.now) (P.accesses port.now)) prepared.now
        reads course.old course.new steps.old steps.new) }
    ensures spent { OnErr result (QuerySpent (world (P.rows port.now) (P.accesses port.now)) prepared.now
        (fetched_by course.old) steps.old steps.new) }
{
    match operation {
        Operation::Block(place) => step_block(alloc, port, prepared, place, course, steps),
        Operation::Unite => {
            unite_last(alloc, &mut course.stack)?;
            go_on(course);
            Ok(None)
        }
        Operation::Subtract => {
            subtract_last(alloc, &mut course.stack)?;
            go_on(course);
            Ok(None)
        }
    }
}

/// Carries out operations until one of them has made a probe, and says how many reads that took; none where all have
/// run.
pub fn go<P: AccessPort, L: Ledger>(
    alloc: Global,
    port: &P,
    prepared: &Prepared,
    course: &mut Course,
    steps: &mut Steps<L>,
) -> Result<Option<usize>, NoMemory>
    requires fits { IsWorld (world (P.rows port.now) (P.accesses port.now)) prepared.now }
    requires course { IsCourse prepared.now course.old }
    requires agrees { AllAgree (world (P.rows port.now) (P.accesses port.now)) prepared.now (fetched_by course.old) }
    ensures course { OnOk result (IsCourse prepared.now course.new) }
    ensures went { IfOk result (λ reads. Went (world (P.rows port.now) (P.accesses port.now)) prepared.now
        reads course.old course.new steps.old steps.new) }
    ensures spent { OnErr result (QuerySpent (world (P.rows port.now) (P.accesses port.now)) prepared.now
        (fetched_by course.old) steps.old steps.new) }
{
    'operations: while course.position < course.operations.len() {
        let operation = course.operations.as_slice()[course.position];
        let reads = carry_out(alloc, port, prepared, operation, course, steps)?;
        if reads.is_some() {
            return Ok(reads);
        }
    }
    Ok(None)
}
