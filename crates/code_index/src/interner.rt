// Values in the order in which they were first interned.
ghost use Rattle.std.specs.Prelude.{◌≡◌, ◌↔◌, ◌<◌, [], length, slice_index_or, Some, IsSome, IfSome, IfOk, OnOk, OnErr};
ghost use Rattle.std.specs.Option.{option_copied};
ghost use Rattle.beas_core.specs.declared.value.Value.TheVariants.{Int};
ghost use Rattle.access_index.specs.Hashing.{or_zero};
ghost use Rattle.code_index.specs.Codes.{code_of, extended, value_of, AreDistinct};
ghost use Rattle.code_index.specs.Reading.{KeepsCodes};

use crate::hints::{Hints, integer_in};
use beas_core::{Duplicate, NoMemory, Value};
use indexmap::IndexSet;
use seeded_hash::SeededHashing;
use std::alloc::Global;
use std::marker::Model;

/// Values, each with a code: its place in the order in which they were first interned. A code that was given stays. Its
/// values are those of rows, which are handed out after a probe alone, so it isn't `Debug`.
#[derive(Drop)]
pub struct Interner {
    values: IndexSet<Value, SeededHashing>,
    hints: Hints,
}

impl Model for Interner {
    ghost use Rattle.std.specs.Prelude.{List};
    ghost use Rattle.std.specs.List.{IsDistinct};
    ghost use Rattle.beas_core.specs.declared.value.Value.{Value as Cell};
    ghost use Rattle.code_index.specs.Codes.{same_value};

    ghost Value = { List Cell };

    ghost view = { λ s. s.values.keys };

    ghost invariant = { λ s. IsDistinct same_value s.values.keys };
}

/// An interner has these two fields and no other: each value once, and where integers may stand. With a further field this
/// would not compile.
fn interner_fields(interner: &Interner) {
    let Interner {
        values: _values,
        hints: _hints,
    } = interner;
}

impl Interner {
    /// No values, which takes no memory. They will be hashed with the seed 0.
    pub fn new(alloc: Global) -> Interner
        ensures { result ≡ [] }
    {
        Interner::seeded(alloc, 0)
    }

    /// No values, to be hashed with a seed, which makes no difference to what is answered. It takes no memory.
    pub fn seeded(alloc: Global, seed: u64) -> Interner
        ensures { result ≡ [] }
    {
        Interner {
            values: IndexSet::with_hasher(alloc, SeededHashing::seeded(seed)),
            hints: Hints::new(alloc),
        }
    }

    /// How its values are hashed, for the indexes over its codes.
    pub fn hashing(&self) -> SeededHashing {
        *self.values.hasher()
    }

    /// The code of an integer that stands where the hint says. It takes no memory.
    fn hinted(&self, integer: i64) -> Option<u64>
        ensures { IfSome result (λ code. code_of self.now (Int integer) ≡ Some code) }
    {
        let place = self.hints.position(integer)?;
        match self.values.get_index(place)? {
            Value::Int(there) if *there == integer => Some(place as u64),
            _ => None,
        }
    }

    /// The code of a value, or none where it was never interned. It takes no memory.
    pub fn code(&self, value: &Value) -> Option<u64>
        ensures { result ≡ code_of self.now value.now }
    {
        if let Value::Int(integer) = value {
            if let Some(code) = self.hinted(*integer) {
                return Some(code);
            }
        }
        match self.values.get_index_of(value) {
            Some(index) => Some(index as u64),
            None => None,
        }
    }

    /// The code of a value, which is interned where it wasn't yet. All other values keep their codes. After an error
    /// the interner is as it was.
    pub fn intern(&mut self, alloc: Global, value: Value) -> Result<u64, NoMemory>
        ensures grows { OnOk result (self.new ≡ extended self.old value) }
        ensures code { IfOk result (λ code. code_of self.new value ≡ Some code) }
        ensures distinct { AreDistinct self.new }
        ensures kept { KeepsCodes self.old self.new }
        ensures err { OnErr result (self.new ≡ self.old) }
    {
        self.hints.make_room(alloc, self.values.as_slice())?;
        let integer = integer_in(&value);
        let (index, _) = self.values.insert_full(value)?;
        self.hints.note(integer, index);
        Ok(index as u64)
    }

    /// The code of an integer, which is interned where it wasn't yet. Where no hint tells, it is hashed once. After an
    /// error the interner is as it was.
    pub(crate) fn intern_integer(&mut self, alloc: Global, integer: i64) -> Result<u64, NoMemory>
        ensures code { IfOk result (λ code. code_of self.new (Int integer) ≡ Some code) }
        ensures kept { KeepsCodes self.old self.new }
        ensures err { OnErr result (self.new ≡ self.old) }
    {
        if let Some(code) = self.hinted(integer) {
            return Ok(code);
        }
        self.intern(alloc, Value::Int(integer))
    }

    /// The value of a code. It takes no memory.
    pub fn value(&self, code: u64) -> &Value
        requires { code < length self.now }
        ensures { result.now ≡ slice_index_or self.now code result.now }
    {
        &self.values[code as usize]
    }

    /// The value of a code, or none for a number that is no code. It takes no memory.
    pub(crate) fn get(&self, code: u64) -> Option<&Value>
        ensures value { or_zero (option_copied result) ≡ value_of self.now code }
        ensures found { IsSome result ↔ (code < length self.now) }
    {
        self.values.get_index(code as usize)
    }

    /// An equal interner: each value has the same code there.
    pub fn copy(&self, alloc: Global) -> Result<Interner, NoMemory>
        ensures { IfOk result (λ copy. copy ≡ self.now) }
    {
        let mut values = IndexSet::with_capacity_and_hasher(
            alloc,
            self.values.len(),
            self.hashing(),
        )?;
        for i in 0..self.values.len() {
            values.insert(self.values[i].copy(alloc)?)?;
        }
        let hints = self.hints.copy(alloc)?;
        Ok(Interner { values, hints })
    }
}
