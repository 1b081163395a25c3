// The load of a file, with its outcome.
ghost use Rattle.std.specs.Prelude.{◌≡◌, ◌-◌, ◌^◌, ◌<◌, [], ◌∷◌, IfOk};
ghost use Rattle.outside.specs.Counts.{raised};
ghost use Rattle.outside.specs.Seen.{IsLater};
ghost use Rattle.session.specs.Ties.{AreTied, LoadIsShort};

use beas_core::{Bytes, NoMemory};
use outside::{Files, FilesError};
use std::alloc::Global;

/// What the load of a file gave, memory aside.
#[derive(Debug, Drop)]
pub enum LoadOutcome {
    /// The file's bytes.
    Content(Bytes),
    /// The file isn't there, or reading it failed.
    Failed,
    /// The file has more bytes than the limit.
    TooLong,
}

/// Loads a file of at most `limit` bytes, once. The outcome is tied to the name's content and counts.
pub fn load_file<F: Files>(
    alloc: Global,
    files: &mut F,
    name: &str,
    limit: u64,
) -> Result<LoadOutcome, NoMemory>
    requires { limit < 2 ^ 64 - 1 }
    ensures tied { IfOk result (λ outcome. AreTied limit (record { name = name.now; outcome = outcome } ∷ [])
        (F.seen files.old) (F.seen files.new)) }
    ensures short { IfOk result (LoadIsShort limit) }
    ensures later { IsLater (F.seen files.old) (F.seen files.new) }
    ensures counted { (F.seen files.new).loads ≡ raised 1 (F.seen files.old).loads }
{
    match files.read(alloc, name, limit) {
        Ok(bytes) => Ok(LoadOutcome::Content(bytes)),
        Err(FilesError::Failed) => Ok(LoadOutcome::Failed),
        Err(FilesError::TooLong { .. }) => Ok(LoadOutcome::TooLong),
        Err(FilesError::NoMemory) => Err(NoMemory),
    }
}
