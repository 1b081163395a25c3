// Files that the program handed over.
ghost use Rattle.std.specs.Prelude.{◌≡◌, ◌≢◌, ◌⊎◌, [], ℕ, List, IsErrOf, OnErr, OnOk};
ghost use Rattle.outside.specs.Contents.{answer_of, content_of};
ghost use Rattle.outside.specs.Counts.{raised};
ghost use Rattle.beas_library.specs.HandedFiles.{seen_of};

use beas_core::{Bytes, NoMemory, Text};
use outside::{Files, FilesError, Shelf, copy_within};
use std::alloc::Global;
use std::marker::Model;

/// Files in memory, each with the bytes that the program handed over last. The load of another name fails, and no other load
/// does, unless memory runs out. A load leaves nothing behind but its count.
#[derive(Drop)]
pub struct HandedFiles {
    files: Shelf,
    loads: u64,
}

impl Model for HandedFiles {
    ghost use Rattle.beas_library.specs.HandedFiles.{Handed};

    ghost Value = { Handed };

    ghost view = { λ h. record { shelf = h.files; loads = h.loads } };
}

impl HandedFiles {
    /// No files. They take no memory.
    pub fn new(alloc: Global) -> HandedFiles
        ensures { result ≡ record { shelf = []; loads = 0 } }
    {
        HandedFiles {
            files: Shelf::new(alloc),
            loads: 0,
        }
    }

    /// Gives a name its bytes. A name that is there gets the new ones.
    pub fn add(&mut self, name: Text, bytes: Bytes) -> Result<(), NoMemory>
        ensures added { OnOk result (content_of self.new.shelf name ≡ Some bytes) }
        ensures others { (other : List ℕ) → other ≢ name
            → content_of self.new.shelf other ≡ content_of self.old.shelf other }
        ensures err { OnErr result (self.new ≡ self.old) }
        ensures loads { self.new.loads ≡ self.old.loads }
    {
        self.files.add(name, bytes)
    }
}

impl Files for HandedFiles {
    ghost seen = { seen_of };

    fn read(&mut self, alloc: Global, name: &str, limit: u64) -> Result<Bytes, FilesError>
        ensures answer { IsErrOf result FilesError.NoMemory
            ⊎ (result ≡ answer_of (content_of self.old.shelf name.now) limit) }
        ensures shelf { self.new.shelf ≡ self.old.shelf }
        ensures loads { self.new.loads ≡ raised 1 self.old.loads }
    {
        self.loads = self.loads.saturating_add(1);
        match self.files.get(name) {
            Some(bytes) => copy_within(alloc, bytes.as_slice(), limit),
            None => Err(FilesError::Failed),
        }
    }
}
