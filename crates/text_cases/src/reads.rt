// Readers that act as they are told.
use crate::acts::{first_act, most_moved};
use crate::lines::cut_at_space;
use beas_core::Bytes;
use outside::{Files, FilesError};
use real_streams::{ReadCounts, RealFiles};
use std::io::{self, Read};

/// A reader of a text.
#[derive(Drop)]
struct FakeReader<'a> {
    acts: &'a str,
    text: &'a [u8],
}

impl Read for FakeReader<'_> {
    fn read(&mut self, buf: &mut [u8]) -> io::Result<usize> {
        let (act, rest) = first_act(self.acts);
        self.acts = rest;
        let count = most_moved(act)?.min(buf.len()).min(self.text.len());
        buf[..count].copy_from_slice(&self.text[..count]);
        self.text = &self.text[count..];
        Ok(count)
    }
}

/// Tells what a read gave, and the counts after it.
fn tell(
    rt: &HostRuntime,
    answer: Result<Bytes, FilesError>,
    faults: u64,
    taken: u64,
) -> io::Result<()> {
    match answer {
        Ok(bytes) => {
            let text = str::from_utf8(bytes.as_slice()).unwrap_or("no text");
            println!(rt; "{text:?}, {faults} faults, {taken} taken")
        }
        Err(FilesError::Failed) => println!(rt; "failed, {faults} faults, {taken} taken"),
        Err(FilesError::TooLong { limit }) => {
            println!(rt; "above {limit} bytes, {faults} faults, {taken} taken")
        }
        Err(FilesError::NoMemory) => println!(rt; "out of memory, {faults} faults, {taken} taken"),
    }
}

/// Reads a text whole, by the acts that come after it.
pub fn read_text(rt: &HostRuntime, limit: u32, case: &str) -> io::Result<()> {
    let (text, acts) = cut_at_space(case);
    let mut source = FakeReader {
        acts,
        text: text.as_bytes(),
    };
    let mut counts = ReadCounts::new();
    let answer = counts.read_whole(rt.alloc(), &mut source, u64::from(limit));
    tell(rt, answer, counts.faults(), counts.taken())
}

/// Reads a reader that never ends.
pub fn read_endless(rt: &HostRuntime, limit: u32) -> io::Result<()> {
    let mut counts = ReadCounts::new();
    let answer = counts.read_whole(rt.alloc(), &mut io::repeat(b'x'), u64::from(limit));
    tell(rt, answer, counts.faults(), counts.taken())
}

/// Reads a file of the system.
pub fn read_file(rt: &HostRuntime, limit: u32, path: &str) -> io::Result<()> {
    let mut files = RealFiles::new(rt);
    let answer = files.read(rt.alloc(), path, u64::from(limit));
    tell(rt, answer, files.faults(), files.taken())
}
