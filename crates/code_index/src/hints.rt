// Where integers may stand among an interner's values.
use beas_core::{NoMemory, Value};
use std::alloc::Global;

/// The fewest places.
const FEWEST: usize = 64;

/// For each integer a place among values where it may stand, found by its lowest bits. Nothing is known of a hint, so
/// whoever takes one looks there.
#[derive(Drop)]
pub struct Hints {
    places: Vec<u32>,
}

/// Hints have this one field and no other, so places and no value: with a further field this would not compile.
fn hints_fields(hints: &Hints) {
    let Hints { places: _places } = hints;
}

/// The integer that a value is, if it is one.
pub fn integer_in(value: &Value) -> Option<i64> {
    match value {
        Value::Int(integer) => Some(*integer),
        Value::Str(_) => None,
    }
}

impl Hints {
    /// No hints, which takes no memory.
    pub fn new(alloc: Global) -> Hints {
        Hints {
            places: Vec::new(alloc),
        }
    }

    /// Which hint is an integer's. The number of hints is a power of two.
    fn number_of(&self, integer: i64) -> usize {
        let mask = (self.places.len() as u64).wrapping_sub(1);
        (integer.cast_unsigned() & mask) as usize
    }

    /// Where an integer may stand. It takes no memory.
    pub fn position(&self, integer: i64) -> Option<usize> {
        match self.places.get(self.number_of(integer)) {
            Some(place) => Some(*place as usize),
            None => None,
        }
    }

    /// Notes where an integer stands, if it is one. It takes no memory.
    pub fn note(&mut self, integer: Option<i64>, place: usize) {
        let Some(integer) = integer else {
            return;
        };
        let number = self.number_of(integer);
        if number >= self.places.len() {
            return;
        }
        if let Ok(place) = u32::try_from(place) {
            self.places[number] = place;
        }
    }

    /// Makes room for one value more: there are more hints than values, so that integers that follow one another have
    /// each their own. More hints take the place of all that are there, since an integer's changes with their number.
    pub fn make_room(&mut self, alloc: Global, values: &[Value]) -> Result<(), NoMemory> {
        if values.len() < self.places.len() {
            return Ok(());
        }
        let more = self.places.len().saturating_mul(2).max(FEWEST);
        let mut places = Vec::with_capacity(alloc, more)?;
        places.resize(more, 0)?;
        self.places = places;
        for (place, value) in values.iter().enumerate() {
            self.note(integer_in(value), place);
        }
        Ok(())
    }

    /// The same hints.
    pub fn copy(&self, alloc: Global) -> Result<Hints, NoMemory> {
        let mut places = Vec::with_capacity(alloc, self.places.len())?;
        places.extend_from_slice(self.places.as_slice())?;
        Ok(Hints { places })
    }
}
