// Files in memory, which tell their contents.
ghost use Rattle.std.specs.Prelude.{◌≡◌, ◌≢◌, ◌⊎◌, ◌++◌, ◌∷◌, [], ℕ, true, List, Some, unwrap_or, OnOk, OnErr, IsErrOf};
ghost use Rattle.outside.specs.Counts.{Rose, raised};
ghost use Rattle.outside.specs.Contents.{content_of, times, is_due, next_answer, answer_within};

use crate::files::{Files, FilesError};
use crate::shelf::{Shelf, copy_within};
use beas_core::{Bytes, List, NoMemory, Text};
use std::alloc::Global;

/// Files in memory. Reads can be told to fail, and the name of each failed load is kept.
#[derive(Debug, Drop)]
pub struct MemoryFiles {
    shelf: Shelf,
    failing: List<u32>,
    failed: List<Text>,
    loads: u64,
}

impl MemoryFiles {
    /// No files.
    pub fn new(alloc: Global) -> MemoryFiles
        ensures shelf { result.shelf ≡ [] }
        ensures failing { result.failing ≡ [] }
        ensures failed { result.failed ≡ [] }
        ensures loads { result.loads ≡ 0 }
    {
        MemoryFiles {
            shelf: Shelf::new(alloc),
            failing: List::new(alloc),
            failed: List::new(alloc),
            loads: 0,
        }
    }

    /// Gives a name its bytes. A name that is there gets the new ones.
    pub fn add(&mut self, name: Text, bytes: Bytes) -> Result<(), NoMemory>
        ensures added { OnOk result (content_of self.new.shelf name ≡ Some bytes) }
        ensures others { (other : List ℕ) → other ≢ name → content_of self.new.shelf other
            ≡ content_of self.old.shelf other }
        ensures err { OnErr result (self.new ≡ self.old) }
        ensures failing { self.new.failing ≡ self.old.failing }
        ensures failed { self.new.failed ≡ self.old.failed }
        ensures loads { self.new.loads ≡ self.old.loads }
    {
        self.shelf.add(name, bytes)
    }

    /// Lets the load with this number fail, counted from 0 over all loads.
    pub fn fail_at(&mut self, call: u32) -> Result<(), NoMemory>
        ensures ok { OnOk result (self.new.failing ≡ self.old.failing ++ call ∷ []) }
        ensures err { OnErr result (self.new ≡ self.old) }
        ensures shelf { self.new.shelf ≡ self.old.shelf }
        ensures failed { self.new.failed ≡ self.old.failed }
        ensures loads { self.new.loads ≡ self.old.loads }
    {
        self.failing.push(call)
    }

    /// How many loads of this name failed.
    pub fn faults(&self, name: &str) -> u64
        ensures { result ≡ times self.now.failed name.now }
    {
        self.failed
            .as_slice()
            .iter()
            .filter(|failed| failed.as_str() == name)
            .count() as u64
    }

    /// Whether the next load is one that was told to fail.
    fn is_due(&self) -> bool
        ensures { result ≡ is_due self.now }
    {
        self.failing
            .as_slice()
            .iter()
            .any(|call| u64::from(*call) == self.loads)
    }

    /// What the next load is to answer.
    fn answer(&self, alloc: Global, name: &str, limit: u64) -> Result<Bytes, FilesError>
        ensures { IsErrOf result FilesError.NoMemory ⊎ (result ≡ next_answer self.now name.now limit) }
    {
        if self.is_due() {
            return Err(FilesError::Failed);
        }
        match self.shelf.get(name) {
            Some(bytes) => copy_within(alloc, bytes.as_slice(), limit),
            None => Err(FilesError::Failed),
        }
    }

    /// Keeps the name of a failed load.
    fn fail(&mut self, alloc: Global, name: &str) -> FilesError
        ensures failed { result ≡ FilesError.Failed → self.new.failed ≡ self.old.failed ++ name.now ∷ [] }
        ensures same { result ≢ FilesError.Failed → self.new.failed ≡ self.old.failed }
        ensures cause { (result ≡ FilesError.Failed) ⊎ (result ≡ FilesError.NoMemory) }
        ensures shelf { self.new.shelf ≡ self.old.shelf }
        ensures failing { self.new.failing ≡ self.old.failing }
        ensures loads { self.new.loads ≡ self.old.loads }
    {
        match Text::from_str(alloc, name) {
            Ok(name) => match self.failed.push(name) {
                Ok(()) => FilesError::Failed,
                Err(NoMemory) => FilesError::NoMemory,
            },
            Err(NoMemory) => FilesError::NoMemory,
        }
    }
}

impl Files for MemoryFiles {
    ghost seen = { λ files. record {
      told = true;
      content = content_of files.shelf;
      faults = times files.failed;
      taken = 0;
      loads = files.loads;
    } };

    fn read(&mut self, alloc: Global, name: &str, limit: u64) -> Result<Bytes, FilesError>
        ensures answer { IsErrOf result FilesError.NoMemory ⊎ (result ≡ next_answer self.old name.now limit) }
        ensures failed { IsErrOf result FilesError.Failed → self.new.failed ≡ self.old.failed ++ name.now ∷ [] }
        ensures rose { IsErrOf result FilesError.Failed → Rose (times self.old.failed name.now)
            (times self.new.failed name.now) }
        ensures same { (IsErrOf result FilesError.Failed → ⊥) → self.new.failed ≡ self.old.failed }
        ensures loads { self.new.loads ≡ raised 1 self.old.loads }
        ensures failing { self.new.failing ≡ self.old.failing }
        ensures shelf { self.new.shelf ≡ self.old.shelf }
    {
        let answer = self.answer(alloc, name, limit);
        self.loads = self.loads.saturating_add(1);
        match answer {
            Err(FilesError::Failed) => Err(self.fail(alloc, name)),
            other => other,
        }
    }
}

/// Files in memory of which no load fails. A missing name has the empty content.
#[derive(Debug, Drop)]
pub struct SteadyFiles {
    shelf: Shelf,
    loads: u64,
}

impl SteadyFiles {
    /// No files.
    pub fn new(alloc: Global) -> SteadyFiles
        ensures shelf { result.shelf ≡ [] }
        ensures loads { result.loads ≡ 0 }
    {
        SteadyFiles {
            shelf: Shelf::new(alloc),
            loads: 0,
        }
    }

    /// Gives a name its bytes. A name that is there gets the new ones.
    pub fn add(&mut self, name: Text, bytes: Bytes) -> Result<(), NoMemory>
        ensures added { OnOk result (content_of self.new.shelf name ≡ Some bytes) }
        ensures others { (other : List ℕ) → other ≢ name → content_of self.new.shelf other
            ≡ content_of self.old.shelf other }
        ensures err { OnErr result (self.new ≡ self.old) }
        ensures loads { self.new.loads ≡ self.old.loads }
    {
        self.shelf.add(name, bytes)
    }
}

impl Files for SteadyFiles {
    ghost seen = { λ files. record {
      told = true;
      content = λ name. Some (unwrap_or (content_of files.shelf name) []);
      faults = λ _. 0;
      taken = 0;
      loads = files.loads;
    } };

    fn read(&mut self, alloc: Global, name: &str, limit: u64) -> Result<Bytes, FilesError>
        ensures answer { IsErrOf result FilesError.NoMemory ⊎ (result
            ≡ answer_within (unwrap_or (content_of self.old.shelf name.now) []) limit) }
        ensures shelf { self.new.shelf ≡ self.old.shelf }
        ensures loads { self.new.loads ≡ raised 1 self.old.loads }
    {
        self.loads = self.loads.saturating_add(1);
        match self.shelf.get(name) {
            Some(bytes) => copy_within(alloc, bytes.as_slice(), limit),
            None => Ok(Bytes::from_vec(Vec::new(alloc))),
        }
    }
}
