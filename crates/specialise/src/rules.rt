// What more constants cover, by rules over sets of candidates.
ghost use Rattle.std.specs.Prelude.{◌≡◌, ◌≤◌, ◌<◌, ◌^◌, bit_or, Bool, IfOk, ℕ, List as Items, All, fold, length, map, replicate};
ghost use Rattle.std.specs.Fn.{FnReturnsAt};
ghost use Rattle.attribute_closure.specs.Uses.{as_use};
ghost use Rattle.specialise.specs.declared.candidates.Candidate.{Candidate};
ghost use Rattle.specialise.specs.Trials.{IsClosedTable, IsFilled, IsTable, Tells, United, entry_at, is_among, mask_where, reached, rule_of, with_first, with_rule};

use crate::candidates::Candidate;
use attribute_closure::UseAt;
use beas_core::{ColumnId, NoMemory, Normal, class_at};
use std::alloc::Global;

/// A use of a constraint, told by the positions of candidates: where a set holds its key, it holds what it gives.
#[derive(Clone, Copy)]
pub struct Rule {
    pub key: u32,
    pub gives: u32,
}

fn is_among(block: &Normal, atom: u16, columns: &[ColumnId], candidate: &Candidate) -> bool
    ensures { result ≡ is_among block.now atom columns.now candidate.now }
{
    columns
        .iter()
        .any(|column| class_at(block, atom, *column) == candidate.class)
}

// A mask over candidates: one over all but the first, moved up by a position, with the first in it or not.
fn with_first(holds: bool, rest: u32) -> u32
    requires { rest < 65536 }
    ensures { result ≡ with_first holds rest }
{
    let moved = 2 * rest;
    if holds { 1 + moved } else { moved }
}

/// The positions of the candidates that pass a test.
pub(crate) fn mask_where<F: Fn(&Candidate) -> bool>(candidates: &[Candidate], test: &F) -> u32
    requires few { length candidates.now ≤ 16 }
    requires test { F.IsAlwaysCallable test.now }
    ensures below { result < 2 ^ length candidates.now }
    ensures mask { (passes : Candidate → Bool) → Tells (FnReturnsAt F.Fn test.now) passes
        → result ≡ mask_where passes candidates.now }
{
    match candidates {
        [] => 0,
        [first, others @ ..] => {
            let rest = mask_where(others, test);
            with_first(test(first), rest)
        }
    }
}

/// The positions of the candidates whose class some columns of an atom have.
pub(crate) fn positions_of(
    block: &Normal,
    atom: u16,
    columns: &[ColumnId],
    candidates: &[Candidate],
) -> u32
    requires { length candidates.now ≤ 16 }
    ensures { result ≡ mask_where (is_among block.now atom columns.now) candidates.now }
{
    mask_where(
        candidates,
        &|candidate: &Candidate| is_among(block, atom, columns, candidate),
    )
}

fn rule_of(block: &Normal, candidates: &[Candidate], found: UseAt<'_>) -> Rule
    requires { length candidates.now ≤ 16 }
    ensures { result ≡ rule_of block.now candidates.now (as_use found.entry) }
{
    let columns = found.access.fetched.as_slice();
    Rule {
        key: positions_of(block, found.atom, found.access.key.as_slice(), candidates),
        gives: positions_of(block, found.atom, columns, candidates),
    }
}

fn add_rule(table: &mut [u32], rule: Rule)
    requires { rule.key < length table.old }
    ensures { table.new ≡ with_rule table.old rule }
{
    let key = rule.key as usize;
    table[key] |= rule.gives;
}

// Adds to the entry of each rule's key what it gives.
fn add_rules(table: &mut [u32], block: &Normal, candidates: &[Candidate], found: &[UseAt<'_>])
    requires few { length candidates.now ≤ 16 }
    requires sets { length table.old ≡ 2 ^ length candidates.now }
    ensures { table.new ≡ fold with_rule table.old (map (rule_of block.now candidates.now) (map as_use found.now)) }
{
    for use_at in found {
        add_rule(table, rule_of(block, candidates, *use_at));
    }
}

// The entry of a set together with those of the sets that lack one of its positions.
fn united(table: &[u32], set: usize, count: usize) -> u32
    requires few { count ≤ 16 }
    requires sets { length table.now ≡ 2 ^ count }
    requires set { set < length table.now }
    ensures { United table.now set count result }
{
    let mut all = table[set];
    for position in 0..count {
        if (set >> position) & 1 == 1 {
            all |= table[set ^ (1 << position)];
        }
    }
    all
}

// Adds to the entry of each set those of the sets within it, the smaller ones first.
fn spread(table: &mut [u32], count: usize)
    requires few { count ≤ 16 }
    requires sets { length table.old ≡ 2 ^ count }
    ensures { (rules : Items Rule) → IsFilled rules table.old → IsTable rules table.new }
{
    for set in 0..table.len() {
        let all = united(table, set, count);
        table[set] = all;
    }
}

// A set with its entry, and where that is a larger set the entry of the larger one.
fn reached(table: &[u32], set: usize) -> u32
    requires few { length table.now ≤ 65536 }
    requires set { set < length table.now }
    requires inside { bit_or set (entry_at table.now set) < length table.now }
    ensures { result ≡ reached table.now set }
{
    let more = set as u32 | table[set];
    if more as usize == set {
        more
    } else {
        table[more as usize]
    }
}

// Makes the entry of each set the least closed set that holds it: the larger sets first, since theirs are looked up.
fn close(table: &mut [u32])
    requires few { length table.old ≤ 65536 }
    requires sets { (count : ℕ) × (length table.old ≡ 2 ^ count) }
    requires entries { All (λ entry. entry < length table.old) table.old }
    ensures { (rules : Items Rule) → IsTable rules table.old → IsClosedTable rules table.new }
{
    for set in (0..table.len()).rev() {
        let all = reached(table, set);
        table[set] = all;
    }
}

// Fills the table of all sets, whose entries are empty.
fn fill(table: &mut [u32], block: &Normal, candidates: &[Candidate], found: &[UseAt<'_>])
    requires few { length candidates.now ≤ 16 }
    requires empty { table.old ≡ replicate (2 ^ length candidates.now) 0 }
    ensures { IsClosedTable (map (rule_of block.now candidates.now) (map as_use found.now)) table.new }
{
    add_rules(table, block, candidates, found);
    spread(table, candidates.len());
    close(table);
}

/// A table with an entry for each set of candidates: the set together with all that the rules give from it.
pub(crate) fn table_of(
    alloc: Global,
    block: &Normal,
    candidates: &[Candidate],
    found: &[UseAt<'_>],
) -> Result<Vec<u32>, NoMemory>
    requires { length candidates.now ≤ 16 }
    ensures sets { IfOk result (λ table. length table.items ≡ 2 ^ length candidates.now) }
    ensures table { IfOk result (λ table.
        IsClosedTable (map (rule_of block.now candidates.now) (map as_use found.now)) table.items) }
{
    let sets: usize = 1 << candidates.len();
    let mut table = vec![in alloc; 0u32; sets]?;
    fill(&mut table, block, candidates, found);
    Ok(table)
}
