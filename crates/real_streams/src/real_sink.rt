// Writers of the system, of which nothing is told but a count.
ghost use Rattle.std.specs.Prelude.{◌≡◌, ◌+◌, ◌-◌, ◌^◌, ◌<◌, ◌≤◌, [], false, Err, length, min, take, IfOk, OnOk, OnErr};
ghost use Rattle.std.specs.Io.KnownBytes.{Appends, Keeps};
ghost use Rattle.outside.specs.Counts.{raised};
ghost use Rattle.real_streams.specs.Given.{GavePart};

use outside::{Sink, SinkError};
use std::io::Write;

/// A writer of the system. The bytes that it took aren't told.
#[derive(Debug, Drop)]
pub struct RealSink<W> {
    writer: W,
    faults: u64,
    puts: u64,
}

impl<W: Write> RealSink<W> {
    /// A sink into this writer, without a fault so far.
    pub fn new(writer: W) -> RealSink<W>
        ensures writer { result.writer ≡ writer }
        ensures faults { result.faults ≡ 0 }
        ensures puts { result.puts ≡ 0 }
    {
        RealSink {
            writer,
            faults: 0,
            puts: 0,
        }
    }

    /// The writer, as it is after the puts so far.
    pub fn writer(&self) -> &W
        ensures { result.now ≡ self.now.writer }
    {
        &self.writer
    }

    /// How many puts failed.
    pub fn faults(&self) -> u64
        ensures { result ≡ self.now.faults }
    {
        self.faults
    }

    /// Counts a fault.
    fn fail(&mut self) -> SinkError
        ensures failed { result ≡ SinkError.Failed }
        ensures faults { self.new.faults ≡ min (self.old.faults + 1) (2 ^ 64 - 1) }
        ensures writer { self.new.writer ≡ self.old.writer }
        ensures puts { self.new.puts ≡ self.old.puts }
    {
        self.faults = self.faults.saturating_add(1);
        SinkError::Failed
    }

    /// Writes a part of the bytes, at least one, and says how many they were. Any error of the system is a fault, an
    /// interrupted call among them.
    fn write_part(&mut self, bytes: &[u8]) -> Result<usize, SinkError>
        requires { 0 < length bytes.now }
        ensures some { IfOk result (λ count. 0 < count) }
        ensures within { IfOk result (λ count. count ≤ length bytes.now) }
        ensures sent { IfOk result (λ count. Appends (W.contents self.old.writer) (W.contents self.new.writer)
            (take count bytes.now)) }
        ensures kept { OnErr result (Keeps (W.contents self.old.writer) (W.contents self.new.writer)) }
        ensures no_fault { OnOk result (self.new.faults ≡ self.old.faults) }
        ensures failed { OnErr result ((result ≡ Err SinkError.Failed)
            × (self.new.faults ≡ min (self.old.faults + 1) (2 ^ 64 - 1))) }
        ensures puts { self.new.puts ≡ self.old.puts }
    {
        match self.writer.write(bytes) {
            Ok(0) => Err(self.fail()),
            Ok(count) => Ok(count),
            Err(_) => Err(self.fail()),
        }
    }
}

impl<W: Write> Sink for RealSink<W> {
    ghost seen = { λ sink. record { told = false; bytes = []; faults = sink.faults; puts = sink.puts } };

    fn put(&mut self, bytes: &[u8]) -> Result<(), SinkError>
        ensures ok { OnOk result (Appends (W.contents self.old.writer) (W.contents self.new.writer) bytes.now) }
        ensures part { GavePart (W.contents self.old.writer) (W.contents self.new.writer) bytes.now }
        ensures no_fault { OnOk result (self.new.faults ≡ self.old.faults) }
        ensures failed { OnErr result ((result ≡ Err SinkError.Failed)
            × (self.new.faults ≡ min (self.old.faults + 1) (2 ^ 64 - 1))) }
        ensures rise { self.old.faults ≤ self.new.faults }
        ensures puts { self.new.puts ≡ raised 1 self.old.puts }
    {
        self.puts = self.puts.saturating_add(1);
        let mut rest = bytes;
        // Steps are counted, and so many are never made.
        'parts: for _ in 0..u64::MAX {
            if rest.is_empty() {
                return Ok(());
            }
            match self.write_part(rest) {
                Ok(count) => rest = &rest[count..],
                Err(why) => return Err(why),
            }
        }
        Err(self.fail())
    }
}
