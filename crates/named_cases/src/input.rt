// What is wrong with a file of named cases.
use named_blocks::Wrong;
use std::io;

/// The error of a program that can't go on.
pub fn error_of(wrong: Wrong) -> io::Error {
    match wrong {
        Wrong::NoMemory => io::Error::from(io::ErrorKind::OutOfMemory),
        Wrong::Line(_) => io::Error::from(io::ErrorKind::InvalidData),
    }
}

/// Says which line can't be read.
pub fn say_wrong(rt: &HostRuntime, wrong: Wrong) -> io::Result<()> {
    match wrong {
        Wrong::Line(number) => println!(rt; "line {number} can't be read"),
        wrong => Err(error_of(wrong)),
    }
}
