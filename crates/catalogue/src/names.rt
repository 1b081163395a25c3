// Numbers by name, found by hashing.
ghost use Rattle.std.specs.Prelude.{◌≡◌, ◌<◌, if◌then◌else◌, ℕ, List, Some, None, IfOk, OnOk, string_bytes};
ghost use Rattle.std.specs.Str.{bytes_eq};
ghost use Rattle.indexmap.specs.IndexMap.{get_by_text, spare};

use beas_core::{Name, NoMemory};
use indexmap::IndexMap;
use seeded_hash::SeededHashing;
use std::alloc::Global;

/// A number for each of some names.
#[derive(Debug, Drop)]
pub struct NameMap {
    numbers: IndexMap<String, u32, SeededHashing>,
}

/// A map of names has this one field and no other: with a further field this would not compile.
fn map_fields(map: &NameMap) {
    let NameMap { numbers: _numbers } = map;
}

impl NameMap {
    /// No names. It takes no memory.
    pub fn new(alloc: Global, hashing: SeededHashing) -> NameMap
        ensures { (q : List ℕ) → get_by_text result.numbers q ≡ None }
    {
        NameMap {
            numbers: IndexMap::with_hasher(alloc, hashing),
        }
    }

    /// How its names are hashed.
    pub fn hashing(&self) -> SeededHashing {
        *self.numbers.hasher()
    }

    /// The number of a name, if it has one.
    pub fn number(&self, name: &Name) -> Option<u32>
        ensures { result ≡ get_by_text self.now.numbers name.now }
    {
        self.numbers.get(name.as_str()).copied()
    }

    /// A copy of a name, with room for it.
    pub fn prepare(&mut self, alloc: Global, name: &Name) -> Result<String, NoMemory>
        ensures same { (q : List ℕ) → get_by_text self.new.numbers q ≡ get_by_text self.old.numbers q }
        ensures room { OnOk result (0 < spare self.new.numbers) }
        ensures copy { IfOk result (λ copy. string_bytes copy ≡ name.now) }
    {
        let copy = String::from_str(alloc, name.as_str())?;
        self.numbers.reserve(1)?;
        Ok(copy)
    }

    /// Gives a name its number, in the room that `prepare` made.
    pub fn put(&mut self, name: String, number: u32)
        requires { 0 < spare self.old.numbers }
        ensures { (q : List ℕ) → get_by_text self.new.numbers q
            ≡ (if bytes_eq (string_bytes name) q then Some number else get_by_text self.old.numbers q) }
    {
        match self.numbers.insert(name, number) {
            Ok(_) => {}
            Err(_) => unreachable!(),
        }
    }

    /// Takes a name and its number away. It takes no memory.
    pub fn remove(&mut self, name: &Name)
        ensures { (q : List ℕ) → get_by_text self.new.numbers q
            ≡ (if bytes_eq name.now q then None else get_by_text self.old.numbers q) }
    {
        self.numbers.swap_remove(name.as_str());
    }
}
