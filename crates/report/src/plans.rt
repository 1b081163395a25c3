// The plan lines of a prepared query.
ghost use Rattle.std.specs.Prelude.{◌≡◌, if◌then◌else◌, ◌<◌, ◌+◌, ◌^◌, ◌==◌, ◌++◌, find, length, option_copied, AllPairs, IsTrue, IfOk, OnOk};
ghost use Rattle.std.specs.List.{flat_map};
ghost use Rattle.beas_core.specs.Derivations.{access_in, is_live};
ghost use Rattle.beas_core.specs.Fits.{PlanFits};
ghost use Rattle.beas_core.specs.Guiding.{after};
ghost use Rattle.beas_core.specs.Numbers.{last_size};
ghost use Rattle.beas_core.specs.Queries.{is_guided, plan_of, size_of, start_size};
ghost use Rattle.beas_core.specs.Trees.{blocks_of};
ghost use Rattle.report.specs.Plans.{BlocksAreTold, StepsAreTold, TablesAreThere, answer_text, block_line, blocks_text, guide_text, plan_lines, plan_text, plan_text_over, scan_line, step_text, steps_text, use_text, verb};

use crate::decimal::Decimal;
use crate::texts::text;
use beas_core::{
    Access, AccessId, DStep, Derivation, List, NoMemory, Prepared, Query, QueryNode, Text,
    recall_bound,
};
use catalogue::Catalogue;
use itoa::Buffer;
use std::alloc::Global;

/// What guides the blocks of a tree: how its answers are made of blocks, and how many there are at most.
#[derive(Drop)]
struct GuideNote {
    answer: Text,
    size: u128,
}

/// Where the lines of a tree's blocks end: the number of the next block, and how many answers the tree has at most.
#[derive(Clone, Copy)]
struct Reached {
    next: usize,
    size: u128,
}

/// How a prepared query is fetched: for each block from left to right a line, and one for each of its steps,
/// with its cost and how many valuations it leaves at most; and at the end how the blocks make the answer. The line
/// of a guided block says how the blocks make its guide, and how many answers that has at most.
pub fn plan_text(
    alloc: Global,
    prepared: &Prepared,
    catalogue: &Catalogue,
) -> Result<Text, NoMemory>
    requires { PlanFits catalogue.now.accesses prepared.now }
    ensures { IfOk result (λ text. text ≡ plan_text catalogue.now prepared.now) }
{
    plan_text_over(alloc, prepared, catalogue, &List::new(alloc))
}

/// How a prepared query is fetched where tables are scanned first, by constraints that aren't live: a line for each
/// of them with the greatest number of rows, and then the lines of the plan over the live constraints and these.
pub fn plan_text_over(
    alloc: Global,
    prepared: &Prepared,
    catalogue: &Catalogue,
    scans: &List<Access>,
) -> Result<Text, NoMemory>
    requires plan { PlanFits (catalogue.now.accesses ++ scans.now) prepared.now }
    requires tables { TablesAreThere catalogue.now scans.now }
    ensures { IfOk result (λ text. text ≡ plan_text_over catalogue.now scans.now prepared.now) }
{
    let mut text = scans_text(alloc, catalogue, scans.as_slice())?;
    push_plan(&mut text, alloc, prepared, catalogue, scans.as_slice())?;
    Ok(text)
}

fn scans_text(alloc: Global, catalogue: &Catalogue, scans: &[Access]) -> Result<Text, NoMemory>
    requires { TablesAreThere catalogue.now scans.now }
    ensures { IfOk result (λ text. text ≡ flat_map (scan_line catalogue.now) scans.now) }
{
    let mut text = Text::new(alloc);
    for scan in scans {
        let line = scan_text(alloc, catalogue, scan)?;
        text.push_str(line.as_str())?;
    }
    Ok(text)
}

#[tactic(auto, unfolding(crate::specs::Plans::scan_line))]
fn scan_text(alloc: Global, catalogue: &Catalogue, scan: &Access) -> Result<Text, NoMemory>
    requires { scan.now.table.0 < length catalogue.now.tables }
    ensures { IfOk result (λ text. text ≡ scan_line catalogue.now scan.now) }
{
    let table = catalogue.table_name(scan.table);
    text!(in alloc; "plan scan {} limit {}\n", table.as_str(), Decimal(scan.bound))
}

/// Adds the lines of the blocks, and that of the answer.
fn push_plan(
    text: &mut Text,
    alloc: Global,
    prepared: &Prepared,
    catalogue: &Catalogue,
    scans: &[Access],
) -> Result<(), NoMemory>
    requires plan { PlanFits (catalogue.now.accesses ++ scans.now) prepared.now }
    requires tables { TablesAreThere catalogue.now scans.now }
    ensures { OnOk result (text.new ≡ text.old
        ++ plan_lines catalogue.now (catalogue.now.accesses ++ scans.now) prepared.now) }
{
    // The announced number fits 128 bits, and so do the numbers of the steps, which are written.
    recall_bound(prepared);
    let derivations = prepared.derivations.as_slice();
    let guided = prepared.guided.as_slice();
    let no_guide = GuideNote {
        answer: Text::new(alloc),
        size: 1,
    };
    push_blocks(
        text,
        alloc,
        derivations,
        guided,
        catalogue,
        scans,
        0,
        &no_guide,
        &prepared.query,
    )?;
    text.push_str("plan answer ")?;
    push_answer(text, 1, &prepared.query)?;
    text.push_str("\n")?;
    Ok(())
}

/// Adds the lines of the blocks of a part of the query, whose first block has this number, from 0 on.
fn push_blocks(
    text: &mut Text,
    alloc: Global,
    derivations: &[Derivation],
    guided: &[bool],
    catalogue: &Catalogue,
    scans: &[Access],
    first: usize,
    guide: &GuideNote,
    query: &Query,
) -> Result<Reached, NoMemory>
    requires tables { TablesAreThere catalogue.now scans.now }
    requires told { BlocksAreTold (catalogue.now.accesses ++ scans.now) guided.now derivations.now first guide.now.size
        query.now }
    ensures text { OnOk result (text.new ≡ text.old ++ blocks_text catalogue.now
        (catalogue.now.accesses ++ scans.now) guided.now derivations.now first guide.now.answer guide.now.size
        query.now) }
    ensures next { IfOk result (λ reached. reached.next ≡ after first query.now) }
    ensures size { IfOk result (λ reached. reached.size
        ≡ size_of (catalogue.now.accesses ++ scans.now) guided.now derivations.now first guide.now.size query.now) }
{
    match &query.node {
        QueryNode::Block(_) => push_block(
            text,
            alloc,
            derivations,
            guided,
            catalogue,
            scans,
            first,
            guide,
        ),
        QueryNode::Union(left, right) => {
            let l = push_blocks(
                text,
                alloc,
                derivations,
                guided,
                catalogue,
                scans,
                first,
                guide,
                left,
            )?;
            let r = push_blocks(
                text,
                alloc,
                derivations,
                guided,
                catalogue,
                scans,
                l.next,
                guide,
                right,
            )?;
            Ok(Reached {
                next: r.next,
                size: l.size + r.size,
            })
        }
        QueryNode::Except(left, right) => {
            let l = push_blocks(
                text,
                alloc,
                derivations,
                guided,
                catalogue,
                scans,
                first,
                guide,
                left,
            )?;
            let right_guide = guide_note(alloc, first + 1, left, l.size)?;
            let r = push_blocks(
                text,
                alloc,
                derivations,
                guided,
                catalogue,
                scans,
                l.next,
                &right_guide,
                right,
            )?;
            Ok(Reached {
                next: r.next,
                size: l.size,
            })
        }
    }
}

/// A part of the query, whose first block has this number from 1 on, as a guide.
fn guide_note(alloc: Global, first: usize, query: &Query, size: u128) -> Result<GuideNote, NoMemory>
    requires { first + length (blocks_of query.now) < 2 ^ 64 }
    ensures answer { IfOk result (λ note. note.answer ≡ answer_text first query.now) }
    ensures size { IfOk result (λ note. note.size ≡ size) }
{
    let mut answer = Text::new(alloc);
    push_answer(&mut answer, first, query)?;
    Ok(GuideNote { answer, size })
}

/// Adds the lines of one block.
fn push_block(
    text: &mut Text,
    alloc: Global,
    derivations: &[Derivation],
    guided: &[bool],
    catalogue: &Catalogue,
    scans: &[Access],
    n: usize,
    guide: &GuideNote,
) -> Result<Reached, NoMemory>
    requires derivations { n < length derivations.now }
    requires flags { n < length guided.now }
    requires tables { TablesAreThere catalogue.now scans.now }
    requires told { StepsAreTold (catalogue.now.accesses ++ scans.now) (start_size guided.now n guide.now.size)
        (plan_of derivations.now n).steps }
    ensures text { OnOk result (text.new ≡ text.old ++ (block_line (n + 1) (guide_text (is_guided guided.now n)
        guide.now.answer guide.now.size) ++ steps_text catalogue.now (catalogue.now.accesses ++ scans.now) (n + 1) 1
        (start_size guided.now n guide.now.size) (plan_of derivations.now n).steps)) }
    ensures next { IfOk result (λ reached. reached.next ≡ n + 1) }
    ensures size { IfOk result (λ reached. reached.size ≡ last_size (catalogue.now.accesses ++ scans.now)
        (start_size guided.now n guide.now.size) (plan_of derivations.now n).steps) }
{
    let is_guided = guided[n];
    let steps = derivations[n].steps.as_slice();
    let words = guide_text(alloc, is_guided, guide)?;
    let line = block_line(alloc, n + 1, words.as_str())?;
    text.push_str(line.as_str())?;
    let start = if is_guided { guide.size } else { 1 };
    let size = push_steps(text, alloc, n + 1, start, steps, catalogue, scans)?;
    Ok(Reached { next: n + 1, size })
}

#[tactic(auto, unfolding(crate::specs::Plans::block_line))]
fn block_line(alloc: Global, block: usize, guide: &str) -> Result<Text, NoMemory>
    ensures { IfOk result (λ text. text ≡ block_line block guide.now) }
{
    text!(in alloc; "plan block {}{guide}\n", Decimal(block))
}

/// What the line of a block says of its guide.
fn guide_text(alloc: Global, is_guided: bool, guide: &GuideNote) -> Result<Text, NoMemory>
    ensures { IfOk result (λ text. text ≡ guide_text is_guided guide.now.answer guide.now.size) }
{
    if is_guided {
        text!(in alloc; " guided by {} size {}", guide.answer.as_str(), Decimal(guide.size))
    } else {
        Ok(Text::new(alloc))
    }
}

/// Adds the lines of a block's steps, where so many valuations stand before the first at most, and tells how many
/// stand after the last.
fn push_steps(
    text: &mut Text,
    alloc: Global,
    block: usize,
    start: u128,
    steps: &[DStep],
    catalogue: &Catalogue,
    scans: &[Access],
) -> Result<u128, NoMemory>
    requires tables { TablesAreThere catalogue.now scans.now }
    requires told { StepsAreTold (catalogue.now.accesses ++ scans.now) start steps.now }
    ensures text { OnOk result (text.new ≡ text.old ++ steps_text catalogue.now
        (catalogue.now.accesses ++ scans.now) block 1 start steps.now) }
    ensures size { IfOk result (λ size. size ≡ last_size (catalogue.now.accesses ++ scans.now) start steps.now) }
{
    let mut size = start;
    for (place, step) in steps.iter().enumerate() {
        let access = access_of(catalogue, scans, step.access);
        let cost = size * u128::from(access.bound);
        size = size_after(step, size, cost);
        let used = use_text(alloc, access, step.adds, catalogue)?;
        let atom = u32::from(step.atom) + 1;
        let line = step_text(alloc, block, place + 1, atom, used.as_str(), cost, size)?;
        text.push_str(line.as_str())?;
    }
    Ok(size)
}

/// How many valuations a step leaves at most.
fn size_after(step: &DStep, before: u128, cost: u128) -> u128
    ensures { result ≡ (if step.now.adds then cost else before) }
{
    if step.adds { cost } else { before }
}

#[tactic(auto, unfolding(crate::specs::Plans::step_text))]
fn step_text(
    alloc: Global,
    block: usize,
    nth: usize,
    atom: u32,
    used: &str,
    cost: u128,
    size: u128,
) -> Result<Text, NoMemory>
    ensures { IfOk result (λ text. text ≡ step_text block nth atom used.now cost size) }
{
    text!(in alloc; "plan {}.{} atom {}{used} cost {} size {}\n",
        Decimal(block), Decimal(nth), Decimal(atom), Decimal(cost), Decimal(size))
}

fn use_text(
    alloc: Global,
    access: &Access,
    adds: bool,
    catalogue: &Catalogue,
) -> Result<Text, NoMemory>
    requires { access.now.table.0 < length catalogue.now.tables }
    ensures { IfOk result (λ text. text ≡ use_text catalogue.now access.now adds) }
{
    let table = catalogue.table_name(access.table);
    text!(in alloc; " {} by {} limit {} {}",
        table.as_str(), access.name.as_str(), Decimal(access.bound), verb(adds))
}

fn verb(adds: bool) -> &'static str
    ensures { result.now ≡ verb adds }
{
    if adds { "adds" } else { "checks" }
}

/// The constraint with this id, a live one or else a scan.
fn access_of<'a>(catalogue: &'a Catalogue, scans: &'a [Access], id: AccessId) -> &'a Access
    requires tables { TablesAreThere catalogue.now scans.now }
    requires live { IsTrue (is_live (catalogue.now.accesses ++ scans.now) id) }
    ensures access { result.now ≡ access_in (catalogue.now.accesses ++ scans.now) id }
    ensures table { result.now.table.0 < length catalogue.now.tables }
{
    match live_with_id(catalogue.accesses().as_slice(), id) {
        Some(access) => access,
        None => match scan_with_id(scans, id) {
            Some(access) => access,
            None => unreachable!(),
        },
    }
}

/// The live constraint with this id, found by halves, since their ids rise.
fn live_with_id(accesses: &[Access], id: AccessId) -> Option<&Access>
    requires { AllPairs (λ a b. a.id.0 < b.id.0) accesses.now }
    ensures { option_copied result ≡ find (λ a. a.id.0 == id.0) accesses.now }
{
    let place = accesses.partition_point(|access| access.id.0 < id.0);
    match accesses.get(place) {
        Some(access) if access.id.0 == id.0 => Some(access),
        _ => None,
    }
}

/// The first scan with this id. There are few: at most one for each atom.
fn scan_with_id(scans: &[Access], id: AccessId) -> Option<&Access>
    ensures { option_copied result ≡ find (λ a. a.id.0 == id.0) scans.now }
{
    scans.iter().find(|scan| scan.id.0 == id.0)
}

/// Adds how the blocks of a query, numbered from `first` on, make the answer, and tells the next number.
fn push_answer(text: &mut Text, first: usize, query: &Query) -> Result<usize, NoMemory>
    requires { first + length (blocks_of query.now) < 2 ^ 64 }
    ensures text { OnOk result (text.new ≡ text.old ++ answer_text first query.now) }
    ensures next { IfOk result (λ next. next ≡ first + length (blocks_of query.now)) }
{
    let (left, sign, right) = match &query.node {
        QueryNode::Block(_) => {
            text.push_str(Buffer::new().format(first))?;
            return Ok(first + 1);
        }
        QueryNode::Union(left, right) => (left, " union ", right),
        QueryNode::Except(left, right) => (left, " except ", right),
    };
    text.push_str("(")?;
    let next = push_answer(text, first, left)?;
    text.push_str(sign)?;
    let next = push_answer(text, next, right)?;
    text.push_str(")")?;
    Ok(next)
}
