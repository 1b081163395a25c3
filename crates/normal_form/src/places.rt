// The places of a block's atoms, numbered by atom and then column.
ghost use Rattle.std.specs.Prelude.{◌≡◌, ◌<◌, ◌≤◌, ◌+◌, ℕ, All, IfOk, length, map, slice_index_or};
ghost use Rattle.beas_core.specs.Shapes.{AtomIsWellFormed, IsPlace, width_of};
ghost use Rattle.normal_form.specs.Places.{offset, place_number, class_list, class_lists, used_list, used_lists};

use beas_core::{Atom, ColumnId, Duplicate, List, NoMemory, Place, Value};
use std::alloc::Global;

/// The atoms of a block, with the number of the first place of each.
#[derive(Drop)]
pub struct Places<'a> {
    pub atoms: &'a [Atom],
    pub offsets: [u16; 16],
    pub count: u16,
    ghost numbered: { (k : ℕ) → k < length atoms.now → slice_index_or offsets k 0 ≡ offset atoms.now k },
    ghost counted: { count ≡ offset atoms.now (length atoms.now) },
    ghost few: { length atoms.now ≤ 16 },
}

impl<'a> Places<'a> {
    /// The places of some atoms.
    #[tactic(auto, using(crate::proofs::Offsets::offset_zero, crate::proofs::Offsets::offset_step, crate::proofs::Offsets::offset_next_fits))]
    pub fn of(atoms: &'a [Atom]) -> Places<'a>
        requires few { length atoms.now ≤ 16 }
        requires widths { All AtomIsWellFormed atoms.now }
        ensures { result.atoms.now ≡ atoms.now }
    {
        let mut offsets = [0; 16];
        let mut count: u16 = 0;
        for (number, atom) in atoms.iter().enumerate() {
            offsets[number] = count;
            count += atom.width;
        }
        Places {
            atoms,
            offsets,
            count,
        }
    }

    /// The number of a place: how many stand before it.
    #[tactic(auto, using(crate::proofs::Offsets::number_below))]
    pub fn number(&self, place: Place) -> usize
        requires { IsPlace self.now.atoms.now place }
        ensures number { result ≡ place_number self.now.atoms.now place }
        ensures bound { result < self.now.count }
    {
        usize::from(self.offsets[place.atom as usize]) + usize::from(place.column.0)
    }
}

impl Places<'_> {
    // The number of the first place of an atom.
    #[tactic(auto, using(crate::proofs::Offsets::places_within))]
    fn first_of(&self, atom: u16) -> usize
        requires { atom < length self.now.atoms.now }
        ensures first { result ≡ offset self.now.atoms.now atom }
        ensures within { result + width_of self.now.atoms.now atom ≤ self.now.count }
    {
        usize::from(self.offsets[usize::from(atom)])
    }

    // The classes of an atom's columns, where `classes` has those of all places: they stand side by side there.
    fn class_list(
        &self,
        alloc: Global,
        classes: &[u16],
        atom: u16,
        width: u16,
    ) -> Result<List<u16>, NoMemory>
        requires atom { atom < length self.now.atoms.now }
        requires width { width ≡ width_of self.now.atoms.now atom }
        requires full { length classes.now ≡ self.now.count }
        ensures { IfOk result (λ list. list ≡ class_list self.now.atoms.now classes.now atom width) }
    {
        let first = self.first_of(atom);
        let own = &classes[first..first + usize::from(width)];
        Ok(List::from_vec(Vec::from_slice(alloc, own)?))
    }

    /// The classes of the columns of each atom, where `classes` has those of all places.
    #[tactic(auto, using(crate::proofs::Used::class_lists_more, crate::proofs::Used::class_lists_all, crate::proofs::Offsets::width_at))]
    pub fn class_lists(&self, alloc: Global, classes: &[u16]) -> Result<List<List<u16>>, NoMemory>
        requires { length classes.now ≡ self.now.count }
        ensures { IfOk result (λ lists. lists ≡ class_lists self.now.atoms.now classes.now) }
    {
        let mut lists = Vec::with_capacity(alloc, self.atoms.len())?;
        for (atom, declared) in self.atoms.iter().enumerate() {
            lists.push_reserved(self.class_list(alloc, classes, atom as u16, declared.width)?);
        }
        Ok(List::from_vec(lists))
    }

    // The columns of an atom that are used, where `used` tells it of all places.
    fn used_list(
        &self,
        alloc: Global,
        used: &[bool],
        atom: u16,
        width: u16,
    ) -> Result<List<ColumnId>, NoMemory>
        requires atom { atom < length self.now.atoms.now }
        requires width { width ≡ width_of self.now.atoms.now atom }
        requires full { length used.now ≡ self.now.count }
        ensures { IfOk result (λ list. list ≡ used_list self.now.atoms.now used.now atom width) }
    {
        let first = self.first_of(atom);
        let mut list = Vec::with_capacity(alloc, usize::from(width))?;
        for number in 0..width {
            if used[first + usize::from(number)] {
                list.push_reserved(ColumnId(number));
            }
        }
        Ok(List::from_vec(list))
    }

    /// The columns of each atom that are used, where `used` tells it of all places.
    #[tactic(auto, using(crate::proofs::Used::used_lists_more, crate::proofs::Used::used_lists_all, crate::proofs::Offsets::width_at))]
    pub fn used_lists(&self, alloc: Global, used: &[bool]) -> Result<List<List<ColumnId>>, NoMemory>
        requires { length used.now ≡ self.now.count }
        ensures { IfOk result (λ lists. lists ≡ used_lists self.now.atoms.now used.now) }
    {
        let mut lists = Vec::with_capacity(alloc, self.atoms.len())?;
        for (atom, declared) in self.atoms.iter().enumerate() {
            lists.push_reserved(self.used_list(alloc, used, atom as u16, declared.width)?);
        }
        Ok(List::from_vec(lists))
    }

    /// Constants with the classes of their places, where `classes` has those of all places.
    pub fn constants_at(
        &self,
        alloc: Global,
        classes: &[u16],
        constants: &[(Place, Value)],
    ) -> Result<List<(u16, Value)>, NoMemory>
        requires full { length classes.now ≡ self.now.count }
        requires places { All (λ c. IsPlace self.now.atoms.now c.0) constants.now }
        ensures { IfOk result (λ list. list
            ≡ map (λ c. (slice_index_or classes.now (place_number self.now.atoms.now c.0) 0, c.1)) constants.now) }
    {
        let mut list = Vec::with_capacity(alloc, constants.len())?;
        for constant in constants {
            let class = classes[self.number(constant.0)];
            list.push_reserved((class, constant.1.copy(alloc)?));
        }
        Ok(List::from_vec(list))
    }
}
