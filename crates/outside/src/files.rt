// Files that are loaded whole, by name.
ghost use Rattle.std.specs.Prelude.{◌≡◌, ◌≢◌, ◌+◌, ◌-◌, ◌^◌, ◌<◌, ◌≤◌, ℕ, true, Some, length, IfOk, IsErrOf, IsSomeAnd};
ghost use Rattle.outside.specs.Counts.{Rose, RoseBy, raised};
ghost use Rattle.outside.specs.Seen.{IsLater, Seen};

use beas_core::Bytes;
use std::alloc::Global;

/// Why a file wasn't loaded.
#[derive(Clone, Copy, Debug, PartialEq, Eq)]
pub enum FilesError {
    /// The file isn't there, or reading it failed.
    Failed,
    /// The file has more than `limit` bytes.
    TooLong { limit: u64 },
    /// Out of memory.
    NoMemory,
}

/// Files that are loaded whole. Counts that are kept as a `u64` stand still at its last value.
pub trait Files {
    /// What is known of them.
    ghost seen: { Self → Seen };

    /// The bytes of a file, of which there are at most `limit`.
    fn read(&mut self, alloc: Global, name: &str, limit: u64) -> Result<Bytes, FilesError>
        requires { limit < 2 ^ 64 - 1 }
        ensures later { IsLater (seen self.old) (seen self.new) }
        ensures counted { (seen self.new).loads ≡ raised 1 (seen self.old).loads }
        ensures ok { IfOk result (λ bytes. (seen self.old).told ≡ true
            → (seen self.old).content name.now ≡ Some bytes) }
        ensures fits { IfOk result (λ bytes. length bytes ≤ limit) }
        ensures failed { IsErrOf result FilesError.Failed
            → Rose ((seen self.old).faults name.now) ((seen self.new).faults name.now) }
        ensures limit { (l : ℕ) → IsErrOf result (FilesError.TooLong l) → l ≡ limit }
        ensures too_long { (l : ℕ) → IsErrOf result (FilesError.TooLong l) → (seen self.old).told ≡ true →
            IsSomeAnd ((seen self.old).content name.now) (λ bytes. limit < length bytes) }
        ensures too_many_taken { (l : ℕ) → IsErrOf result (FilesError.TooLong l) → (seen self.old).told ≢ true →
            RoseBy (limit + 1) (seen self.old).taken (seen self.new).taken };
}
