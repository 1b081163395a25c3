// Cases as a file spells them.
use beas_core::NoMemory;
use std::alloc::Global;

/// A text, and what it is to be read as.
#[derive(Drop)]
pub struct Case {
    pub text: String,
    pub wanted: String,
}

impl Case {
    /// No text, of which nothing is wanted.
    fn empty(alloc: Global) -> Case {
        Case {
            text: String::new(alloc),
            wanted: String::new(alloc),
        }
    }
}

// The character with a number of base 16.
fn character(digits: &str) -> Option<char> {
    let mut number = 0_u32;
    for digit in digits.chars() {
        number = number
            .saturating_mul(16)
            .saturating_add(digit.to_digit(16)?);
    }
    char::from_u32(number)
}

// Adds what `[N TEXT]` stands for, of which the brackets are left out.
fn add_repeated(text: &mut String, spelled: &str) -> Result<(), NoMemory> {
    if let Some((count, once)) = spelled.split_once(' ') {
        for _ in 0..count.parse::<u32>().unwrap_or(0) {
            text.push_str(once)?;
        }
    }
    Ok(())
}

// Adds what brackets with this between them stand for. A number of no character stands for U+FFFD.
fn add_bracketed(text: &mut String, spelled: &str) -> Result<(), NoMemory> {
    match spelled.strip_prefix("U+") {
        Some(digits) => Ok(text.push(character(digits).unwrap_or(char::REPLACEMENT_CHARACTER))?),
        None => add_repeated(text, spelled),
    }
}

// Adds what stands between two opening brackets.
fn add_part(text: &mut String, part: &str) -> Result<(), NoMemory> {
    match part.split_once(']') {
        Some((spelled, after)) => {
            add_bracketed(text, spelled)?;
            Ok(text.push_str(after)?)
        }
        None => Ok(text.push_str(part)?),
    }
}

// Adds a line of a case, below those that stand there.
fn add_line(text: &mut String, line: &str) -> Result<(), NoMemory> {
    if !text.is_empty() {
        text.push('\n')?;
    }
    for part in line.split('[') {
        add_part(text, part)?;
    }
    Ok(())
}

// Adds a line to the text of a case, or to what is wanted for it.
fn add_to_case(case: &mut Case, line: &str) -> Result<(), NoMemory> {
    match line.strip_prefix("> ") {
        Some(line) => add_line(&mut case.wanted, line),
        None => add_line(&mut case.text, line),
    }
}

fn case_of(alloc: Global, part: &str) -> Result<Case, NoMemory> {
    let mut case = Case::empty(alloc);
    for line in part.lines() {
        add_to_case(&mut case, line)?;
    }
    Ok(case)
}

/// The cases of a file, in order.
pub fn cases_of(alloc: Global, file: &str) -> Result<Vec<Case>, NoMemory> {
    let mut cases = Vec::new(alloc);
    for part in file.split("\n\n") {
        if !part.starts_with('#') {
            cases.push(case_of(alloc, part)?)?;
        }
    }
    Ok(cases)
}

// A word as a name, which it is not.
fn refused_case(alloc: Global, word: &str) -> Result<Case, NoMemory> {
    let text = format!(in alloc; "DROP ACCESS {word}")?;
    let wanted = String::from_str(alloc, "refused: no statement")?;
    Ok(Case { text, wanted })
}

// A word with `_` after it as a name.
fn longer_case(alloc: Global, word: &str) -> Result<Case, NoMemory> {
    let text = format!(in alloc; "DROP ACCESS {word}_")?;
    let wanted = text.clone()?;
    Ok(Case { text, wanted })
}

// Adds both cases of a word.
fn add_word(alloc: Global, cases: &mut Vec<Case>, word: &str) -> Result<(), NoMemory> {
    cases.push(refused_case(alloc, word)?)?;
    cases.push(longer_case(alloc, word)?)?;
    Ok(())
}

/// Two cases for each line of a file, which is a word that is no name.
pub fn reserved_cases(alloc: Global, file: &str) -> Result<Vec<Case>, NoMemory> {
    let mut cases = Vec::new(alloc);
    for word in file.lines() {
        add_word(alloc, &mut cases, word)?;
    }
    Ok(cases)
}
