// How many key classes of each use of a constraint a growing set of classes lacks.
ghost use Rattle.std.specs.Prelude.{◌≡◌, ◌<◌, ◌≤◌, [], ℕ, All, IfOk, OnOk, length, map, replicate, slice_set, true, false};
ghost use Rattle.beas_core.specs.Coverage.{ClassesInRange, key_classes, uses, with_classes, class_at as class_of_column};
ghost use Rattle.attribute_closure.specs.Uses.{as_use};
ghost use Rattle.attribute_closure.specs.Keys.{AreCounted, CountedDown, GoesOn, KeysAreCounted, WaitsFor, number_at, times};

use crate::uses::{UseAt, uses_of};
use beas_core::{Access, ColumnId, List, NoMemory, Normal, class_at};
use std::alloc::Global;

/// The uses of constraints on the atoms of a block, and a growing set of classes. `missing` says for each use how many
/// of its key columns have a class outside the set, `waiting` for each class which uses have it in their keys, once
/// for each such column, and `ready` has the uses whose key the set holds, in the order in which that came about.
#[derive(Drop)]
pub struct Keys<'a> {
    pub uses: List<UseAt<'a>>,
    pub set: Vec<bool>,
    pub missing: Vec<usize>,
    pub waiting: Vec<List<usize>>,
    pub ready: List<usize>,
}

// Each number that stands here lacks one class less, and those that lack none any more are ready.
#[tactic(auto, using(crate::proofs::Counting::counted_none))]
fn count_down(
    numbers: &[usize],
    missing: &mut [usize],
    ready: &mut List<usize>,
) -> Result<(), NoMemory>
    requires inside { All (λ w. w < length missing.old) numbers.now }
    requires enough { (w : ℕ) → w < length missing.old → times w numbers.now ≤ number_at missing.old w }
    ensures { OnOk result (CountedDown numbers.now missing.old missing.new ready.old ready.new) }
{
    for number in numbers {
        missing[*number] -= 1;
        if missing[*number] == 0 {
            ready.push(*number)?;
        }
    }
    Ok(())
}

// A use waits for the class of each of its key columns.
#[tactic(auto, using(crate::proofs::Waiting::waits_none))]
fn wait(
    block: &Normal,
    number: usize,
    found: UseAt<'_>,
    waiting: &mut [List<usize>],
) -> Result<(), NoMemory>
    requires ranges { ClassesInRange block.now }
    requires lists { length waiting.old ≡ block.now.count }
    ensures { OnOk result
        (WaitsFor block.now.count number (key_classes block.now (as_use found.entry)) waiting.old waiting.new) }
{
    for column in found.access.key.as_slice() {
        let class = usize::from(class_at(block, found.atom, *column));
        let list = &mut waiting[class];
        list.push(number)?;
    }
    Ok(())
}

// Takes up uses one by one: what each lacks, the classes that it waits for, and whether it is ready at once.
fn take_up(
    block: &Normal,
    uses: &[UseAt<'_>],
    missing: &mut Vec<usize>,
    waiting: &mut [List<usize>],
    ready: &mut List<usize>,
) -> Result<(), NoMemory>
    requires ranges { ClassesInRange block.now }
    requires missing { missing.old.items ≡ [] }
    requires waiting { waiting.old ≡ replicate block.now.count [] }
    requires ready { ready.old ≡ [] }
    ensures { OnOk result
        (AreCounted block.now (map as_use uses.now) (replicate block.now.count false) missing.new.items waiting.new
        ready.new) }
{
    for (number, found) in uses.iter().enumerate() {
        let columns = found.access.key.len();
        missing.push(columns)?;
        wait(block, number, *found, waiting)?;
        if columns == 0 {
            ready.push(number)?;
        }
    }
    Ok(())
}

fn no_lists(alloc: Global, count: u16) -> Result<Vec<List<usize>>, NoMemory>
    ensures { IfOk result (λ lists. lists.items ≡ replicate count []) }
{
    let mut lists = Vec::with_capacity(alloc, usize::from(count))?;
    for _class in 0..count {
        lists.push(List::new(alloc))?;
    }
    Ok(lists)
}

impl<'a> Keys<'a> {
    /// The uses of some constraints on the atoms of a block, and the empty set.
    pub fn of(alloc: Global, block: &Normal, accesses: &'a [Access]) -> Result<Keys<'a>, NoMemory>
        requires ranges { ClassesInRange block.now }
        requires atoms { length block.now.atoms < 65536 }
        ensures counted { IfOk result (λ keys. KeysAreCounted block.now keys) }
        ensures uses { IfOk result (λ keys. map as_use keys.uses ≡ uses block.now accesses.now) }
        ensures set { IfOk result (λ keys. keys.set.items ≡ replicate block.now.count false) }
    {
        let uses = uses_of(alloc, block, accesses)?;
        let mut missing = Vec::with_capacity(alloc, uses.len())?;
        let mut waiting = no_lists(alloc, block.count)?;
        let mut ready = List::new(alloc);
        take_up(
            block,
            uses.as_slice(),
            &mut missing,
            &mut waiting,
            &mut ready,
        )?;
        Ok(Keys {
            uses,
            set: vec![in alloc; false; usize::from(block.count)]?,
            missing,
            waiting,
            ready,
        })
    }

    /// Adds a class to the set.
    fn add(&mut self, block: &Normal, class: u16) -> Result<(), NoMemory>
        requires class { class < block.now.count }
        requires counted { KeysAreCounted block.now self.old }
        ensures counted { OnOk result (KeysAreCounted block.now self.new) }
        ensures set { OnOk result (self.new.set.items ≡ slice_set self.old.set.items class true) }
        ensures uses { self.new.uses ≡ self.old.uses }
        ensures goes_on { OnOk result (GoesOn self.old.ready self.new.ready) }
    {
        let place = usize::from(class);
        if !self.set[place] {
            self.set[place] = true;
            count_down(
                self.waiting[place].as_slice(),
                &mut self.missing,
                &mut self.ready,
            )?;
        }
        Ok(())
    }

    /// Adds the classes of some columns of an atom to the set.
    pub fn add_columns(
        &mut self,
        block: &Normal,
        atom: u16,
        columns: &[ColumnId],
    ) -> Result<(), NoMemory>
        requires ranges { ClassesInRange block.now }
        requires counted { KeysAreCounted block.now self.old }
        ensures counted { OnOk result (KeysAreCounted block.now self.new) }
        ensures set { OnOk result (self.new.set.items
            ≡ with_classes self.old.set.items (map (class_of_column block.now atom) columns.now)) }
        ensures uses { self.new.uses ≡ self.old.uses }
        ensures goes_on { OnOk result (GoesOn self.old.ready self.new.ready) }
    {
        for column in columns {
            self.add(block, class_at(block, atom, *column))?;
        }
        Ok(())
    }

    /// Adds the classes of another set.
    pub fn add_set(&mut self, block: &Normal, more: &[bool]) -> Result<(), NoMemory>
        requires counted { KeysAreCounted block.now self.old }
        requires none { self.old.set.items ≡ replicate block.now.count false }
        requires classes { length more.now ≡ block.now.count }
        ensures counted { OnOk result (KeysAreCounted block.now self.new) }
        ensures set { OnOk result (self.new.set.items ≡ more.now) }
        ensures uses { self.new.uses ≡ self.old.uses }
    {
        for class in 0..block.count {
            if more[usize::from(class)] {
                self.add(block, class)?;
            }
        }
        Ok(())
    }
}
