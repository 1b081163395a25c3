// The error that ends a program of cases.
use beas_core::NoMemory;
use std::io;

/// The error of a program that runs out of memory.
pub fn out_of_memory(_: NoMemory) -> io::Error {
    io::Error::from(io::ErrorKind::OutOfMemory)
}
