// Writers that act as they are told.
use crate::acts::{first_act, most_moved};
use outside::{Sink, SinkError};
use real_streams::RealSink;
use std::io::{self, Write};

/// A writer, and what it took.
#[derive(Drop)]
struct FakeWriter<'a> {
    acts: &'a str,
    held: Vec<u8>,
}

impl Write for FakeWriter<'_> {
    fn write(&mut self, buf: &[u8]) -> io::Result<usize> {
        let (act, rest) = first_act(self.acts);
        self.acts = rest;
        let count = most_moved(act)?.min(buf.len());
        self.held.extend_from_slice(&buf[..count])?;
        Ok(count)
    }

    fn flush(&mut self) -> io::Result<()> {
        Ok(())
    }
}

/// What comes of a put, in words.
fn ending(outcome: Result<(), SinkError>) -> &'static str {
    match outcome {
        Ok(()) => "ok",
        Err(SinkError::Failed) => "failed",
        Err(SinkError::NoMemory) => "out of memory",
    }
}

/// Puts a piece into a writer, by its acts.
pub fn write_text(rt: &HostRuntime, piece: &str, acts: &str) -> io::Result<()> {
    let mut sink = RealSink::new(FakeWriter {
        acts,
        held: Vec::new(rt.alloc()),
    });
    let ending = ending(sink.put(piece.as_bytes()));
    let faults = sink.faults();
    let held = str::from_utf8(sink.writer().held.as_slice()).unwrap_or("no text");
    println!(rt; "{ending}, {faults} faults, it holds {held:?}")
}
