// Readers and writers that act as a line tells them to.
use crate::lines::{cut_at_space, number_of};
use crate::reads::{read_endless, read_file, read_text};
use crate::writes::write_text;
use std::{fs, io};

fn try_line(rt: &HostRuntime, line: &str) -> io::Result<()> {
    let (call, rest) = cut_at_space(line);
    let (first, others) = cut_at_space(rest);
    match call {
        "read" => read_text(rt, number_of(first), others),
        "endless" => read_endless(rt, number_of(first)),
        "file" => read_file(rt, number_of(first), others),
        "write" => write_text(rt, first, others),
        _ => println!(rt; "no such call"),
    }
}

fn try_lines(rt: &HostRuntime, text: &str) -> io::Result<()> {
    for line in text.lines() {
        if !line.starts_with('#') {
            try_line(rt, line)?;
        }
    }
    Ok(())
}

/// Prints what comes of the reader or the writer of each line of a file.
pub fn try_streams(rt: &HostRuntime, path: &str) -> io::Result<()> {
    let text = fs::read_to_string(rt, path)?;
    try_lines(rt, text.as_str())
}
