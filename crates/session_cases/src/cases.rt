// Cases of scripts as folders of files.
use drawn_scenes::names_in;
use std::alloc::Global;
use std::{fs, io};

/// The name of a case's script, which is the argument that it is run with where it names no other.
const SCRIPT: &str = "script.beas";

/// The name of the script that is run before, over the same session.
const SCRIPT_BEFORE: &str = "before.beas";

/// A file of a case.
#[derive(Drop)]
pub struct CaseFile {
    pub name: String,
    pub bytes: Vec<u8>,
}

/// A case: what is run, and what is to come of it.
#[derive(Drop)]
pub struct Case {
    pub name: String,
    pub files: Vec<CaseFile>,
    pub arguments: Vec<String>,
    pub output: Vec<u8>,
    pub error: Vec<u8>,
    pub status: u8,
    /// Whether the arguments ask for a demonstration, which writes no reports.
    pub is_demonstration: bool,
    /// The number of the load that fails, from 0 on, if one is to fail.
    pub failing_read: Option<u32>,
    /// The arguments of the run that comes before, over the same session, where there is one.
    pub arguments_before: Vec<String>,
}

/// All files of a folder.
fn case_files(rt: &HostRuntime, folder: &str) -> io::Result<Vec<CaseFile>> {
    let mut files = Vec::new(rt.alloc());
    for name in names_in(rt, folder, false)? {
        let path = format!(in rt.alloc(); "{folder}/{name}")?;
        let bytes = fs::read(rt, path.as_str())?;
        files.push(CaseFile { name, bytes })?;
    }
    Ok(files)
}

/// The bytes of the file with this name, none where there is no such file.
fn bytes_of(alloc: Global, files: &[CaseFile], name: &str) -> io::Result<Vec<u8>> {
    let mut bytes = Vec::new(alloc);
    if let Some(file) = files.iter().find(|file| file.name.as_str() == name) {
        bytes.extend_from_slice(&file.bytes)?;
    }
    Ok(bytes)
}

fn text_of(alloc: Global, files: &[CaseFile], name: &str) -> io::Result<String> {
    String::from_utf8(bytes_of(alloc, files, name)?).map_err(|_| io::Error::from(
        io::ErrorKind::InvalidData,
    ))
}

/// The arguments that a case is run with.
fn words_of(alloc: Global, files: &[CaseFile]) -> io::Result<Vec<String>> {
    let mut words = Vec::new(alloc);
    if !files.iter().any(|file| file.name.as_str() == "words") {
        words.push(String::from_str(alloc, SCRIPT)?)?;
        return Ok(words);
    }
    for word in text_of(alloc, files, "words")?.as_str().lines() {
        words.push(String::from_str(alloc, word)?)?;
    }
    Ok(words)
}

fn asks_for_demonstration(words: &[String]) -> bool {
    words.iter().any(|word| word.as_str() == "--demo")
}

fn status_of(alloc: Global, files: &[CaseFile]) -> io::Result<u8> {
    let digits = text_of(alloc, files, "status")?;
    Ok(digits.as_str().trim().parse::<u8>().unwrap_or(0))
}

/// The number of the load that fails.
fn failing_read_of(alloc: Global, files: &[CaseFile]) -> io::Result<Option<u32>> {
    let digits = text_of(alloc, files, "failing_read")?;
    Ok(digits.as_str().trim().parse::<u32>().ok())
}

fn words_before_of(alloc: Global, files: &[CaseFile]) -> io::Result<Vec<String>> {
    let mut words = Vec::new(alloc);
    if files.iter().any(|file| file.name.as_str() == SCRIPT_BEFORE) {
        words.push(String::from_str(alloc, SCRIPT_BEFORE)?)?;
    }
    Ok(words)
}

/// A case of some files, of which nothing is said yet.
fn case_of_files(alloc: Global, name: String, files: Vec<CaseFile>) -> Case {
    Case {
        name,
        files,
        arguments: Vec::new(alloc),
        output: Vec::new(alloc),
        error: Vec::new(alloc),
        status: 0,
        is_demonstration: false,
        failing_read: None,
        arguments_before: Vec::new(alloc),
    }
}

/// Reads what a case's files say of it.
fn fill(alloc: Global, case: &mut Case) -> io::Result<()> {
    case.arguments = words_of(alloc, &case.files)?;
    case.is_demonstration = asks_for_demonstration(&case.arguments);
    case.output = bytes_of(alloc, &case.files, "output")?;
    case.error = bytes_of(alloc, &case.files, "error")?;
    case.status = status_of(alloc, &case.files)?;
    case.failing_read = failing_read_of(alloc, &case.files)?;
    case.arguments_before = words_before_of(alloc, &case.files)?;
    Ok(())
}

fn case_in(rt: &HostRuntime, folder: &str, name: String) -> io::Result<Case> {
    let alloc = rt.alloc();
    let path = format!(in alloc; "{folder}/{name}")?;
    let files = case_files(rt, path.as_str())?;
    let mut case = case_of_files(alloc, name, files);
    match fill(alloc, &mut case) {
        Ok(()) => Ok(case),
        Err(why) => {
            drop(case);
            Err(why)
        }
    }
}

/// The cases of a folder, in order of their names.
pub fn cases_of(rt: &HostRuntime, folder: &str) -> io::Result<Vec<Case>> {
    let mut cases = Vec::new(rt.alloc());
    for name in names_in(rt, folder, true)? {
        cases.push(case_in(rt, folder, name)?)?;
    }
    Ok(cases)
}
