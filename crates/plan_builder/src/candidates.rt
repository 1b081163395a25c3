// The uses that may come next in a derivation, the best first.
ghost use Rattle.std.specs.Prelude.{◌≡◌, ◌<◌, ◌≤◌, ◌++◌, [], if◌then◌else◌, slice_set, All, IfOk, IfSome, List, OnOk, false, filter, length, map, option_map, replicate, true};
ghost use Rattle.std.specs.List.{list_all};
ghost use Rattle.std.specs.List.Sorted.{IsPermutation};
ghost use Rattle.std.specs.BinaryHeap.{IsHeap, heap_items, heap_len};
ghost use Rattle.beas_core.specs.declared.schema.Access.{Access};
ghost use Rattle.beas_core.specs.Coverage.{ClassesInRange, holds_needed, is_covered, uses, with_classes};
ghost use Rattle.beas_core.specs.Derivations.{least_bound, with_use};
ghost use Rattle.attribute_closure.specs.Keys.{KeysAreCounted};
ghost use Rattle.attribute_closure.specs.Uses.{as_use};
ghost use Rattle.plan_builder.specs.Candidates.{AreCandidates, AreLeft, AreOthers, AreWaiting, atoms_served, entry_of, later};
ghost use Rattle.plan_builder.specs.Choices.{may_add};

use crate::sets::adds;
use attribute_closure::{Keys, UseAt, holds_needed, open_place};
use beas_core::{Access, NoMemory, Normal};
use std::alloc::Global;
use std::cmp::Reverse;
use std::collections::BinaryHeap;

/// Bounds and numbers of uses, the least first.
type Queue = BinaryHeap<Reverse<(u32, usize)>, Global>;

/// The uses whose key a growing set of classes holds: those that may come up yet, the least bound first and then the
/// first in the list, and for each atom whether one of them serves it.
#[derive(Drop)]
pub struct Candidates<'a> {
    pub keys: Keys<'a>,
    pub waiting: BinaryHeap<Reverse<(u32, usize)>, Global>,
    pub served: Vec<bool>,
}

fn push_all(uses: &[UseAt<'_>], numbers: &[usize], waiting: &mut Queue) -> Result<(), NoMemory>
    requires { All (λ w. w < length uses.now) numbers.now }
    ensures order { OnOk result (IsHeap later (heap_items waiting.old) → IsHeap later (heap_items waiting.new)) }
    ensures items { OnOk result (IsPermutation
        (heap_items waiting.old ++ map (entry_of (map as_use uses.now)) numbers.now)
        (heap_items waiting.new)) }
{
    for number in numbers {
        let found = uses[*number];
        waiting.push(Reverse((found.access.bound, *number)))?;
    }
    Ok(())
}

#[tactic(auto, using(attribute_closure::proofs::Sets::set_past))]
fn note_atom(block: &Normal, found: &UseAt<'_>, served: &mut [bool])
    ensures { served.new ≡ (if holds_needed block.now (as_use found.now)
        then slice_set served.old found.now.atom true
        else served.old) }
{
    if holds_needed(block, found) {
        let atom = usize::from(found.atom);
        if atom < served.len() {
            served[atom] = true;
        }
    }
}

fn note_served(block: &Normal, uses: &[UseAt<'_>], numbers: &[usize], served: &mut [bool])
    requires { All (λ w. w < length uses.now) numbers.now }
    ensures { served.new ≡ with_classes served.old (atoms_served block.now (map as_use uses.now) numbers.now) }
{
    for number in numbers {
        let found = uses[*number];
        note_atom(block, &found, served);
    }
}

// Recalls that the length of a queue is the number of its items.
fn recall_items(waiting: &Queue)
    ensures { length (heap_items waiting.now) ≡ heap_len waiting.now }
{
    let _items = waiting.as_slice();
}

// The best that adds a class. Those that come up before it add none, and never will.
fn next_adding<'a>(
    block: &Normal,
    uses: &[UseAt<'a>],
    set: &[bool],
    waiting: &mut Queue,
) -> Option<UseAt<'a>>
    requires ranges { ClassesInRange block.now }
    requires classes { length set.now ≡ block.now.count }
    requires waiting { AreWaiting block.now (map as_use uses.now) set.now (heap_items waiting.old) }
    ensures best { option_map as_use result ≡ least_bound (filter (may_add block.now set.now) (map as_use uses.now)) }
    ensures left { IfSome result (λ found.
        AreLeft block.now (map as_use uses.now) set.now (as_use found) (heap_items waiting.new)) }
{
    while let Some(next) = waiting.pop() {
        let found = uses[next.0.1];
        if adds(block, set, &found) {
            return Some(found);
        }
    }
    // Its length is 0, so that none is left.
    recall_items(waiting);
    None
}

fn all_true(tests: &[bool]) -> bool
    ensures { result ≡ list_all (λ b. b) tests.now }
{
    for test in tests {
        if !*test {
            return false;
        }
    }
    true
}

impl<'a> Candidates<'a> {
    /// The uses of some constraints whose key a start set holds.
    pub fn of(
        alloc: Global,
        block: &Normal,
        accesses: &'a [Access],
        start: &[bool],
    ) -> Result<Candidates<'a>, NoMemory>
        requires ranges { ClassesInRange block.now }
        requires atoms { length block.now.atoms < 65536 }
        requires classes { length start.now ≡ block.now.count }
        ensures are { IfOk result (AreCandidates block.now) }
        ensures uses { IfOk result (λ c. map as_use c.keys.uses ≡ uses block.now accesses.now) }
        ensures set { IfOk result (λ c. c.keys.set.items ≡ start.now) }
    {
        let served = vec![in alloc; false; block.atoms.len()]?;
        let keys = Keys::of(alloc, block, accesses)?;
        let mut found = Candidates {
            keys,
            waiting: BinaryHeap::new(alloc),
            served,
        };
        match found.take_set(block, start) {
            Ok(()) => Ok(found),
            Err(NoMemory) => {
                drop(found);
                Err(NoMemory)
            }
        }
    }

    // Takes a start set, before which no class is bound.
    fn take_set(&mut self, block: &Normal, start: &[bool]) -> Result<(), NoMemory>
        requires counted { KeysAreCounted block.now self.old.keys }
        requires atoms { All (λ u. u.atom < length block.now.atoms) (map as_use self.old.keys.uses) }
        requires classes { length start.now ≡ block.now.count }
        requires none { self.old.keys.set.items ≡ replicate block.now.count false }
        requires order { IsHeap later (heap_items self.old.waiting) }
        requires waiting { heap_items self.old.waiting ≡ [] }
        requires served { self.old.served.items ≡ replicate (length block.now.atoms) false }
        ensures are { OnOk result (AreCandidates block.now self.new) }
        ensures set { OnOk result (self.new.keys.set.items ≡ start.now) }
        ensures uses { self.new.keys.uses ≡ self.old.keys.uses }
    {
        self.keys.add_set(block, start)?;
        let keys = &self.keys;
        let ready = keys.ready.as_slice();
        push_all(keys.uses.as_slice(), ready, &mut self.waiting)?;
        note_served(block, keys.uses.as_slice(), ready, &mut self.served);
        Ok(())
    }

    /// The use of least bound whose key is bound and that adds a class, the first of those where several have it.
    pub fn next(&mut self, block: &Normal) -> Option<UseAt<'a>>
        requires ranges { ClassesInRange block.now }
        requires are { AreCandidates block.now self.old }
        ensures best { option_map as_use result
            ≡ least_bound (filter (may_add block.now self.old.keys.set.items) (map as_use self.old.keys.uses)) }
        ensures left { IfSome result (λ found. AreOthers block.now (as_use found) self.new) }
        ensures keys { self.new.keys ≡ self.old.keys }
    {
        let keys = &self.keys;
        next_adding(block, keys.uses.as_slice(), &keys.set, &mut self.waiting)
    }

    /// Takes a use that came up: its classes are bound now.
    pub fn take(&mut self, block: &Normal, found: &UseAt<'_>) -> Result<(), NoMemory>
        requires ranges { ClassesInRange block.now }
        requires left { AreOthers block.now (as_use found.now) self.old }
        ensures are { OnOk result (AreCandidates block.now self.new) }
        ensures set { OnOk result
            (self.new.keys.set.items ≡ with_use block.now self.old.keys.set.items (as_use found.now)) }
        ensures uses { self.new.keys.uses ≡ self.old.keys.uses }
    {
        let noted = self.keys.ready.len();
        self.keys
            .add_columns(block, found.atom, found.access.key.as_slice())?;
        self.keys
            .add_columns(block, found.atom, found.access.fetched.as_slice())?;
        let keys = &self.keys;
        let more = &keys.ready.as_slice()[noted..];
        push_all(keys.uses.as_slice(), more, &mut self.waiting)?;
        note_served(block, keys.uses.as_slice(), more, &mut self.served);
        Ok(())
    }

    /// Whether the set covers the block: each needed column is bound, and each atom served.
    pub fn cover(&self, block: &Normal) -> bool
        requires are { AreCandidates block.now self.now }
        requires needed { length block.now.needed ≤ 65536 }
        ensures { (accesses : List Access) → map as_use self.now.keys.uses ≡ uses block.now accesses
            → result ≡ is_covered block.now accesses self.now.keys.set.items }
    {
        match open_place(block, &self.keys.set) {
            None => all_true(&self.served),
            Some(_place) => false,
        }
    }
}
