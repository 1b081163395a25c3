// What comes of the lines of files, and the words of a line.
use beas_core::NoMemory;
use std::io;

/// Prints what came of a case.
pub fn print_answer(rt: &HostRuntime, answer: Result<String, NoMemory>) -> io::Result<()> {
    match answer {
        Ok(said) => println!(rt; "{said}"),
        Err(NoMemory) => println!(rt; "out of memory"),
    }
}

/// The text up to the first space, and what comes after it.
pub fn cut_at_space(text: &str) -> (&str, &str) {
    text.split_once(' ').unwrap_or((text, ""))
}

/// A number, 0 where a word is none.
pub fn number_of(word: &str) -> u32 {
    word.parse::<u32>().unwrap_or(0)
}
