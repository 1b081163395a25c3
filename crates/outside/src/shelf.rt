// Names and their bytes, which the kinds of files in memory share.
ghost use Rattle.std.specs.Prelude.{◌≡◌, ◌≢◌, ◌⊎◌, [], Some, None, List, ℕ, bytes_eq, OnOk, OnErr, MatchOption, IsErrOf};
ghost use Rattle.std.specs.List.{position};
ghost use Rattle.outside.specs.Contents.{content_of, answer_within};

use crate::files::FilesError;
use beas_core::{Bytes, NoMemory, Text};
use std::alloc::Global;
use std::marker::Model;

/// A file in memory.
#[derive(Debug, Drop)]
pub struct Entry {
    name: Text,
    bytes: Bytes,
}

/// Files in memory, each name once.
#[derive(Debug, Drop)]
pub struct Shelf {
    entries: Vec<Entry>,
}

impl Model for Shelf {
    ghost use Rattle.std.specs.Prelude.{List};
    ghost use Rattle.outside.specs.declared.shelf.Entry.{Entry as File};

    ghost Value = { List File };

    ghost view = { λ s. s.entries.items };
}

impl Shelf {
    pub fn new(alloc: Global) -> Shelf
        ensures { result ≡ [] }
    {
        Shelf {
            entries: Vec::new(alloc),
        }
    }

    /// Where a name stands.
    pub fn position(&self, name: &str) -> Option<usize>
        ensures { result ≡ position (λ e. bytes_eq e.name name.now) self.now }
    {
        self.entries.iter().position(|e| e.name.as_str() == name)
    }

    /// The bytes of a name, if it is there.
    #[tactic(auto, using(crate::proofs::Contents::content_at, crate::proofs::Contents::no_content))]
    pub fn get(&self, name: &str) -> Option<&Bytes>
        ensures { MatchOption result (content_of self.now name.now ≡ None)
            (λ b. content_of self.now name.now ≡ Some b.now) }
    {
        match self.position(name) {
            Some(place) => Some(&self.entries[place].bytes),
            None => None,
        }
    }

    /// Gives a name these bytes, in the place of those that it has.
    #[tactic(auto, using(crate::proofs::Contents::content_set, crate::proofs::Contents::content_set_other, crate::proofs::Contents::content_pushed, crate::proofs::Contents::content_pushed_other))]
    pub fn add(&mut self, name: Text, bytes: Bytes) -> Result<(), NoMemory>
        ensures added { OnOk result (content_of self.new name ≡ Some bytes) }
        ensures others { (other : List ℕ) → other ≢ name → content_of self.new other ≡ content_of self.old other }
        ensures err { OnErr result (self.new ≡ self.old) }
    {
        match self.position(name.as_str()) {
            Some(place) => {
                self.entries[place] = Entry { name, bytes };
                Ok(())
            }
            None => {
                self.entries.push(Entry { name, bytes })?;
                Ok(())
            }
        }
    }
}

/// A copy of the bytes, of which there are at most `limit`.
pub fn copy_within(alloc: Global, bytes: &[u8], limit: u64) -> Result<Bytes, FilesError>
    ensures { IsErrOf result FilesError.NoMemory ⊎ (result ≡ answer_within bytes.now limit) }
{
    if limit < bytes.len() as u64 {
        return Err(FilesError::TooLong { limit });
    }
    match bytes.to_vec(alloc) {
        Ok(copy) => Ok(Bytes::from_vec(copy)),
        Err(_) => Err(FilesError::NoMemory),
    }
}
