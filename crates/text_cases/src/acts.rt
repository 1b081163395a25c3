// What streams do at their calls.
use crate::lines::{cut_at_space, number_of};
use std::io::{self, ErrorKind};

/// The error that an act is, if it is one.
fn error_of(act: &str) -> Option<ErrorKind> {
    match act {
        "interrupted" => Some(ErrorKind::Interrupted),
        "would block" => Some(ErrorKind::WouldBlock),
        "reset" => Some(ErrorKind::ConnectionReset),
        "broken pipe" => Some(ErrorKind::BrokenPipe),
        "out of memory" => Some(ErrorKind::OutOfMemory),
        _ => None,
    }
}

/// The first act, and those after it.
pub fn first_act(acts: &str) -> (&str, &str) {
    acts.split_once(", ").unwrap_or((acts, ""))
}

/// How many bytes an act moves at most, or the error that it is.
pub fn most_moved(act: &str) -> io::Result<usize> {
    match error_of(act) {
        Some(kind) => Err(io::Error::from(kind)),
        None => Ok(number_of(cut_at_space(act).1) as usize),
    }
}
