// Files of the system, of which nothing is told but counts.
ghost use Rattle.std.specs.Prelude.{◌≡◌, ◌≢◌, ◌⊎◌, ◌+◌, ◌-◌, ◌^◌, ◌<◌, ◌≤◌, ◌++◌, ℕ, Ok, Err, false, None, length, min, IfOk, IfErr, IfSome, OnErr, IsErrOf};
ghost use Rattle.std.specs.IoError.{error_kind};
ghost use Rattle.std.specs.Io.KnownBytes.{IsAtEnd};
ghost use Rattle.outside.specs.Counts.{raised};
ghost use Rattle.real_streams.specs.Taken.{Took, TooLongFor};

use beas_core::Bytes;
use outside::{Files, FilesError};
use std::alloc::Global;
use std::io::{self, ErrorKind, Read};
use std::{fs, rt};

/// How many bytes are asked of the system at a time.
const PIECE: usize = 65536;

/// The counts of reads. They stand still at the last value.
#[derive(Debug, Drop)]
pub struct ReadCounts {
    faults: u64,
    taken: u64,
}

/// How a reader goes on after a piece.
#[derive(Clone, Copy, Debug, PartialEq, Eq)]
enum Progress {
    More,
    End,
}

impl ReadCounts {
    /// Both at 0.
    pub fn new() -> ReadCounts
        ensures faults { result.faults ≡ 0 }
        ensures taken { result.taken ≡ 0 }
    {
        ReadCounts {
            faults: 0,
            taken: 0,
        }
    }

    /// How many reads failed.
    pub fn faults(&self) -> u64
        ensures { result ≡ self.now.faults }
    {
        self.faults
    }

    /// How many bytes were taken.
    pub fn taken(&self) -> u64
        ensures { result ≡ self.now.taken }
    {
        self.taken
    }

    /// Counts a fault.
    fn fail(&mut self) -> FilesError
        ensures failed { result ≡ FilesError.Failed }
        ensures faults { self.new.faults ≡ min (self.old.faults + 1) (2 ^ 64 - 1) }
        ensures rise { self.old.faults ≤ self.new.faults }
        ensures taken { self.new.taken ≡ self.old.taken }
    {
        self.faults = self.faults.saturating_add(1);
        FilesError::Failed
    }

    /// What an error means: out of memory, or a fault, which is counted. An interrupted call is a fault.
    fn fault(&mut self, error: &io::Error) -> FilesError
        ensures memory { error_kind error.now ≡ ErrorKind.OutOfMemory → result ≡ FilesError.NoMemory }
        ensures failed { error_kind error.now ≢ ErrorKind.OutOfMemory → result ≡ FilesError.Failed }
        ensures faults { result ≡ FilesError.Failed → self.new.faults ≡ min (self.old.faults + 1) (2 ^ 64 - 1) }
        ensures same { result ≢ FilesError.Failed → self.new.faults ≡ self.old.faults }
        ensures rise { self.old.faults ≤ self.new.faults }
        ensures cause { (result ≡ FilesError.Failed) ⊎ (result ≡ FilesError.NoMemory) }
        ensures taken { self.new.taken ≡ self.old.taken }
    {
        match error.kind() {
            ErrorKind::OutOfMemory => FilesError::NoMemory,
            _ => self.fail(),
        }
    }

    /// Takes one piece after the bytes that there are, up to `limit + 1` bytes in all.
    fn take_piece<S: Read>(
        &mut self,
        source: &mut S,
        piece: &mut [u8],
        bytes: &mut Vec<u8>,
        limit: u64,
    ) -> Result<Progress, FilesError>
        requires limit { limit < 2 ^ 64 - 1 }
        requires some { 0 < length piece.old }
        requires room { length bytes.old.items ≤ limit }
        ensures took { IfOk result (λ _. Took (S.remaining source.old) (S.remaining source.new) bytes.old.items
            bytes.new.items) }
        ensures more { result ≡ Ok Progress.More → length bytes.old.items < length bytes.new.items }
        ensures end { result ≡ Ok Progress.End → IsAtEnd (S.remaining source.new) }
        ensures fits { IfOk result (λ _. length bytes.new.items ≤ limit) }
        ensures counted { IfOk result (λ _. self.new.taken ≡ min
            (self.old.taken + length bytes.new.items - length bytes.old.items) (2 ^ 64 - 1)) }
        ensures limit { (l : ℕ) → IsErrOf result (FilesError.TooLong l) → l ≡ limit }
        ensures all_taken { (l : ℕ) → IsErrOf result (FilesError.TooLong l)
            → self.new.taken ≡ min (self.old.taken + limit + 1 - length bytes.old.items) (2 ^ 64 - 1) }
        ensures too_long { (l : ℕ) → IsErrOf result (FilesError.TooLong l)
            → TooLongFor limit (S.remaining source.old) bytes.old.items }
        ensures least { self.old.taken ≤ self.new.taken }
        ensures most { self.new.taken + length bytes.old.items ≤ self.old.taken + limit + 1 }
        ensures failed { IsErrOf result FilesError.Failed → self.new.faults ≡ min (self.old.faults + 1) (2 ^ 64 - 1) }
        ensures rise { self.old.faults ≤ self.new.faults }
        ensures same { (IsErrOf result FilesError.Failed → ⊥) → self.new.faults ≡ self.old.faults }
    {
        let before = self.taken;
        let room = (limit - bytes.len() as u64 + 1).min(piece.len() as u64) as usize;
        match source.read(&mut piece[..room]) {
            Ok(0) => Ok(Progress::End),
            Ok(count) => {
                self.taken = before.saturating_add(count as u64);
                add_piece(bytes, &piece[..count], limit)
            }
            Err(error) => Err(self.fault(&error)),
        }
    }

    /// All bytes of a reader, of which there are at most `limit`. At most `limit + 1` bytes are taken.
    pub fn read_whole<S: Read>(
        &mut self,
        alloc: Global,
        source: &mut S,
        limit: u64,
    ) -> Result<Bytes, FilesError>
        requires { limit < 2 ^ 64 - 1 }
        ensures ok { IfOk result (λ bytes. IfSome (S.remaining source.old) (λ left. bytes ≡ left)) }
        ensures fits { IfOk result (λ bytes. length bytes ≤ limit) }
        ensures counted { IfOk result (λ bytes. self.new.taken ≡ min (self.old.taken + length bytes) (2 ^ 64 - 1)) }
        ensures limit { (l : ℕ) → IsErrOf result (FilesError.TooLong l) → l ≡ limit }
        ensures all_taken { (l : ℕ) → IsErrOf result (FilesError.TooLong l)
            → self.new.taken ≡ min (self.old.taken + limit + 1) (2 ^ 64 - 1) }
        ensures too_long { (l : ℕ) → IsErrOf result (FilesError.TooLong l)
            → IfSome (S.remaining source.old) (λ left. limit < length left) }
        ensures least { self.old.taken ≤ self.new.taken }
        ensures most { self.new.taken ≤ self.old.taken + limit + 1 }
        ensures failed { IsErrOf result FilesError.Failed → self.new.faults ≡ min (self.old.faults + 1) (2 ^ 64 - 1) }
        ensures rise { self.old.faults ≤ self.new.faults }
        ensures same { (IsErrOf result FilesError.Failed → ⊥) → self.new.faults ≡ self.old.faults }
    {
        let mut bytes = Vec::new(alloc);
        let mut room = room_for_a_piece(alloc)?;
        let piece = room.as_mut_slice();
        // Steps are counted, and so many are never made.
        'pieces: for _ in 0..u64::MAX {
            match self.take_piece(source, piece, &mut bytes, limit) {
                Ok(Progress::More) => {}
                Ok(Progress::End) => return Ok(Bytes::from_vec(bytes)),
                Err(why) => return Err(why),
            }
        }
        Err(self.fail())
    }

    /// All bytes of a reader that was opened, of which there are at most `limit`. One that wasn't opened gives none.
    fn read_opened<S: Read + Drop>(
        &mut self,
        alloc: Global,
        opened: io::Result<S>,
        limit: u64,
    ) -> Result<Bytes, FilesError>
        requires { limit < 2 ^ 64 - 1 }
        ensures memory { IfErr opened (λ error. error_kind error ≡ ErrorKind.OutOfMemory
            → result ≡ Err FilesError.NoMemory) }
        ensures not_opened { IfErr opened (λ error. error_kind error ≢ ErrorKind.OutOfMemory
            → result ≡ Err FilesError.Failed) }
        ensures ok { IfOk opened (λ source. IfOk result (λ bytes. IfSome (S.remaining source) (λ left. bytes ≡ left))) }
        ensures fits { IfOk result (λ bytes. length bytes ≤ limit) }
        ensures counted { IfOk result (λ bytes. self.new.taken ≡ min (self.old.taken + length bytes) (2 ^ 64 - 1)) }
        ensures limit { (l : ℕ) → IsErrOf result (FilesError.TooLong l) → l ≡ limit }
        ensures all_taken { (l : ℕ) → IsErrOf result (FilesError.TooLong l)
            → self.new.taken ≡ min (self.old.taken + limit + 1) (2 ^ 64 - 1) }
        ensures too_long { IfOk opened (λ source. (l : ℕ) → IsErrOf result (FilesError.TooLong l)
            → IfSome (S.remaining source) (λ left. limit < length left)) }
        ensures least { self.old.taken ≤ self.new.taken }
        ensures most { self.new.taken ≤ self.old.taken + limit + 1 }
        ensures failed { IsErrOf result FilesError.Failed → self.new.faults ≡ min (self.old.faults + 1) (2 ^ 64 - 1) }
        ensures rise { self.old.faults ≤ self.new.faults }
        ensures same { (IsErrOf result FilesError.Failed → ⊥) → self.new.faults ≡ self.old.faults }
    {
        match opened {
            Ok(mut source) => self.read_whole(alloc, &mut source, limit),
            Err(why) => Err(self.fault(&why)),
        }
    }
}

/// Room that pieces are read into.
fn room_for_a_piece(alloc: Global) -> Result<Vec<u8>, FilesError>
    ensures some { IfOk result (λ room. 0 < length room.items) }
    ensures err { OnErr result (result ≡ Err FilesError.NoMemory) }
{
    match Vec::from_elem(alloc, 0, PIECE) {
        Ok(room) => Ok(room),
        Err(_) => Err(FilesError::NoMemory),
    }
}

/// Adds a piece after the bytes, which are more than the limit then or not.
fn add_piece(bytes: &mut Vec<u8>, piece: &[u8], limit: u64) -> Result<Progress, FilesError>
    ensures ok { IfOk result (λ turn. (turn ≡ Progress.More) × (bytes.new.items ≡ bytes.old.items ++ piece.now)
        × (length bytes.new.items ≤ limit)) }
    ensures too_long { (l : ℕ) → IsErrOf result (FilesError.TooLong l)
        → (l ≡ limit) × (limit < length bytes.old.items + length piece.now) }
    ensures failed { IsErrOf result FilesError.Failed → ⊥ }
{
    if bytes.extend_from_slice(piece).is_err() {
        return Err(FilesError::NoMemory);
    }
    if limit < bytes.len() as u64 {
        return Err(FilesError::TooLong { limit });
    }
    Ok(Progress::More)
}

/// The files of the system, by path. Their contents aren't told, and one count of faults serves all names.
#[derive(Drop)]
pub struct RealFiles<'a, R: rt::Files> {
    runtime: &'a R,
    counts: ReadCounts,
    loads: u64,
}

impl<'a, R: rt::Files> RealFiles<'a, R> {
    /// The files that a runtime opens.
    pub fn new(runtime: &'a R) -> RealFiles<'a, R>
        ensures faults { result.counts.faults ≡ 0 }
        ensures taken { result.counts.taken ≡ 0 }
        ensures loads { result.loads ≡ 0 }
    {
        RealFiles {
            runtime,
            counts: ReadCounts::new(),
            loads: 0,
        }
    }

    /// How many reads failed.
    pub fn faults(&self) -> u64
        ensures { result ≡ self.now.counts.faults }
    {
        self.counts.faults
    }

    /// How many bytes were taken of all files.
    pub fn taken(&self) -> u64
        ensures { result ≡ self.now.counts.taken }
    {
        self.counts.taken
    }
}

impl<R: rt::Files> Files for RealFiles<'_, R> {
    ghost seen = { λ files. record {
      told = false;
      content = λ _. None;
      faults = λ _. files.counts.faults;
      taken = files.counts.taken;
      loads = files.loads;
    } };

    fn read(&mut self, alloc: Global, name: &str, limit: u64) -> Result<Bytes, FilesError>
        requires { limit < 2 ^ 64 - 1 }
        ensures fits { IfOk result (λ bytes. length bytes ≤ limit) }
        ensures counted { IfOk result (λ bytes. self.new.counts.taken
            ≡ min (self.old.counts.taken + length bytes) (2 ^ 64 - 1)) }
        ensures limit { (l : ℕ) → IsErrOf result (FilesError.TooLong l) → l ≡ limit }
        ensures all_taken { (l : ℕ) → IsErrOf result (FilesError.TooLong l)
            → self.new.counts.taken ≡ min (self.old.counts.taken + limit + 1) (2 ^ 64 - 1) }
        ensures least { self.old.counts.taken ≤ self.new.counts.taken }
        ensures most { self.new.counts.taken ≤ self.old.counts.taken + limit + 1 }
        ensures failed { IsErrOf result FilesError.Failed → self.new.counts.faults
            ≡ min (self.old.counts.faults + 1) (2 ^ 64 - 1) }
        ensures same { (IsErrOf result FilesError.Failed → ⊥) → self.new.counts.faults ≡ self.old.counts.faults }
        ensures rise { self.old.counts.faults ≤ self.new.counts.faults }
        ensures loads { self.new.loads ≡ raised 1 self.old.loads }
    {
        self.loads = self.loads.saturating_add(1);
        let opened = fs::open(self.runtime, name);
        self.counts.read_opened(alloc, opened, limit)
    }
}
