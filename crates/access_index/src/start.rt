// Where the tuples begin that a probe finds.
ghost use Rattle.std.specs.Prelude.{◌≡◌};
ghost use Rattle.access_index.specs.Index.{start_at};

/// A place is the number of the bucket times this, plus the position.
const POSITIONS: u64 = 0x1_0000_0000;

/// Where a group begins in an index: its bucket, and the position of its first tuple there. `Hits` keep it as one
/// number.
#[derive(Clone, Copy)]
pub struct GroupStart {
    pub bucket: u32,
    pub from: u32,
}

impl GroupStart {
    /// The number for `Hits`.
    pub fn pack(self) -> u64
        ensures { start_at result ≡ self }
    {
        u64::from(self.bucket) * POSITIONS + u64::from(self.from)
    }

    /// What a number stands for in `Hits`.
    pub fn unpack(place: u64) -> GroupStart
        ensures { result ≡ start_at place }
    {
        GroupStart {
            bucket: (place / POSITIONS) as u32,
            from: (place % POSITIONS) as u32,
        }
    }
}
