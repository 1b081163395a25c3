// Tables by class: where each class first stands in a list of classes in any order.
ghost use Rattle.std.specs.Prelude.{◌≡◌, ◌<◌, ◌++◌, filter, length, nat_lt, map, slice_index_or, All, IfOk};
ghost use Rattle.std.specs.List.{range_with_len};
ghost use Rattle.beas_core.specs.Coverage.{class_at as class_of_column};
ghost use Rattle.beas_core.specs.Valuations.{classes_in};
ghost use Rattle.plan_ops.specs.Over.{set_of};
ghost use Rattle.plan_ops.specs.Places.{place_of, places_in};

use beas_core::{ColumnId, List, NoMemory, Normal, Value, class_at};
use std::alloc::Global;
use std::marker::Model;

/// Classes in any order, some of which may be equal: some that are given, then those of some columns of an atom, and then those
/// of some constants.
#[derive(Drop)]
pub struct ClassList<'a> {
    block: &'a Normal,
    classes: &'a [u16],
    atom: u16,
    columns: &'a [ColumnId],
    constants: &'a [(u16, Value)],
}

impl<'a> Model for ClassList<'a> {
    ghost use Rattle.std.specs.Prelude.{List, ℕ, map, ◌++◌};
    ghost use Rattle.beas_core.specs.Coverage.{class_at as class_of_column};

    ghost Value = { List ℕ };

    ghost view = { λ s. s.classes.now ++ map (class_of_column s.block.now s.atom) s.columns.now
        ++ map (λ c. c.0) s.constants.now };
}

impl<'a> ClassList<'a> {
    /// These classes alone.
    pub fn of(block: &'a Normal, classes: &'a [u16]) -> ClassList<'a>
        ensures { result ≡ classes.now }
    {
        ClassList {
            block,
            classes,
            atom: 0,
            columns: &[],
            constants: &[],
        }
    }

    /// The classes of these constants, read where they stand.
    pub fn of_constants(block: &'a Normal, constants: &'a [(u16, Value)]) -> ClassList<'a>
        ensures { result ≡ map (λ c. c.0) constants.now }
    {
        ClassList {
            block,
            classes: &[],
            atom: 0,
            columns: &[],
            constants,
        }
    }

    /// These classes and then those of some columns of an atom. The list isn't made.
    pub fn with_columns(
        block: &'a Normal,
        classes: &'a [u16],
        atom: u16,
        columns: &'a [ColumnId],
    ) -> ClassList<'a>
        ensures { result ≡ classes.now ++ map (class_of_column block.now atom) columns.now }
    {
        ClassList {
            block,
            classes,
            atom,
            columns,
            constants: &[],
        }
    }

    pub fn len(&self) -> usize
        ensures { result ≡ length self.now }
    {
        self.classes.len() + self.columns.len() + self.constants.len()
    }

    /// The class at a place.
    pub fn get(&self, at: usize) -> u16
        requires { at < length self.now }
        ensures { result ≡ slice_index_or self.now at 0 }
    {
        if at < self.classes.len() {
            return self.classes[at];
        }
        let at = at - self.classes.len();
        if at < self.columns.len() {
            class_at(self.block, self.atom, self.columns[at])
        } else {
            self.constants[at - self.columns.len()].0
        }
    }
}

/// For each class its first place in a list of classes, and the list's length where it stands nowhere.
pub fn first_positions(alloc: Global, count: u16, list: &ClassList) -> Result<Vec<usize>, NoMemory>
    requires { All (λ class. class < count) list.now }
    ensures { IfOk result (λ places. places.items ≡ places_in count list.now) }
{
    let none = list.len();
    let mut places = vec![in alloc; none; usize::from(count)]?;
    for at in 0..none {
        let class = usize::from(list.get(at));
        if places[class] == none {
            places[class] = at;
        }
    }
    Ok(places)
}

/// The classes that stand in a list, ascending.
pub fn classes_of(
    alloc: Global,
    block: &Normal,
    places: &[usize],
    list: &ClassList,
) -> Result<List<u16>, NoMemory>
    requires classes { All (λ class. class < block.now.count) list.now }
    requires places { places.now ≡ places_in block.now.count list.now }
    ensures { IfOk result (λ found. found ≡ classes_in (set_of block.now list.now)) }
{
    let none = list.len();
    let room = usize::from(block.count);
    let mut found = Vec::with_capacity(alloc, room)?;
    for class in 0..block.count {
        if places[usize::from(class)] < none {
            found.push_reserved(class);
        }
    }
    Ok(List::from_vec(found))
}

/// The first places of the classes that stand in a list, in the order of the classes.
pub fn positions_held(mut places: Vec<usize>, none: usize) -> Vec<usize>
    ensures { result.items ≡ filter (λ place. nat_lt place none) places.items }
{
    places.retain(|place| *place < none);
    places
}
