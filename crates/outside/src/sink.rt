// Where bytes go.
ghost use Rattle.std.specs.Prelude.{◌≡◌, ◌++◌, true, OnOk, IsErrOf};
ghost use Rattle.outside.specs.Counts.{Rose, raised};
ghost use Rattle.outside.specs.Parts.{SentPart};
ghost use Rattle.outside.specs.Seen.{IsLaterSink, Sent};

/// Why a piece wasn't taken whole.
#[derive(Clone, Copy, Debug, PartialEq, Eq)]
pub enum SinkError {
    /// The sink failed. It took a part of the piece, or nothing.
    Failed,
    /// Out of memory. The sink took nothing.
    NoMemory,
}

/// A sink of bytes. Counts that are kept as a `u64` stand still at its last value.
pub trait Sink {
    /// What is known of it.
    ghost seen: { Self → Sent };

    /// Sends all of the bytes.
    fn put(&mut self, bytes: &[u8]) -> Result<(), SinkError>
        ensures later { IsLaterSink (seen self.old) (seen self.new) }
        ensures counted { (seen self.new).puts ≡ raised 1 (seen self.old).puts }
        ensures part { (seen self.old).told ≡ true
            → SentPart (seen self.old).bytes (seen self.new).bytes bytes.now }
        ensures ok { OnOk result ((seen self.old).told ≡ true
            → (seen self.new).bytes ≡ (seen self.old).bytes ++ bytes.now) }
        ensures no_fault { OnOk result ((seen self.new).faults ≡ (seen self.old).faults) }
        ensures failed { IsErrOf result SinkError.Failed → Rose (seen self.old).faults (seen self.new).faults }
        ensures none_sent { IsErrOf result SinkError.NoMemory → (seen self.old).told ≡ true
            → (seen self.new).bytes ≡ (seen self.old).bytes }
        ensures no_memory { IsErrOf result SinkError.NoMemory → (seen self.new).faults ≡ (seen self.old).faults };
}
