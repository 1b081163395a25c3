// Command lines and demonstrations, one a line.
use crate::lines::print_answer;
use beas_core::NoMemory;
use command_line::{Args, Usage, args};
use demo_gen::demo;
use std::alloc::Global;
use std::{fs, io};

const LONG: u32 = 70_000;

// An argument as it is spelled.
fn argument_of(alloc: Global, spelled: &str) -> Result<String, NoMemory> {
    if spelled == "*" {
        return long_argument(alloc);
    }
    Ok(String::from_str(alloc, spelled)?)
}

fn long_argument(alloc: Global) -> Result<String, NoMemory> {
    let mut argument = String::new(alloc);
    for _ in 0..LONG {
        argument.push_str("a")?;
    }
    Ok(argument)
}

fn arguments_of(alloc: Global, line: &str) -> Result<Vec<String>, NoMemory> {
    let mut arguments = Vec::new(alloc);
    for spelled in line.split('|').skip(1) {
        arguments.push(argument_of(alloc, spelled)?)?;
    }
    Ok(arguments)
}

// A path, or its length where it is long.
fn path_text(alloc: Global, path: &str) -> Result<String, NoMemory> {
    if path.len() > 100 {
        let length = path.len();
        Ok(format!(in alloc; "of {length} bytes")?)
    } else {
        Ok(format!(in alloc; "\"{path}\"")?)
    }
}

fn options_text(alloc: Global, budget: Option<u64>, explain: bool) -> Result<String, NoMemory> {
    let flag = if explain { " explained" } else { "" };
    match budget {
        Some(budget) => Ok(format!(in alloc; " budget {budget}{flag}")?),
        None => Ok(format!(in alloc; "{flag}")?),
    }
}

fn script_text(
    alloc: Global,
    path: &str,
    budget: Option<u64>,
    explain: bool,
) -> Result<String, NoMemory> {
    let path = path_text(alloc, path)?;
    let options = options_text(alloc, budget, explain)?;
    Ok(format!(in alloc; "script {path}{options}")?)
}

fn demo_text(
    alloc: Global,
    seed: u32,
    budget: Option<u64>,
    explain: bool,
) -> Result<String, NoMemory> {
    let options = options_text(alloc, budget, explain)?;
    Ok(format!(in alloc; "demo {seed}{options}")?)
}

fn args_text(alloc: Global, args: &Args) -> Result<String, NoMemory> {
    match args {
        Args::Script {
            path,
            budget,
            explain,
        } => script_text(alloc, path.as_str(), *budget, *explain),
        Args::Demo {
            seed,
            budget,
            explain,
        } => demo_text(alloc, *seed, *budget, *explain),
    }
}

fn answer_to_words(alloc: Global, line: &str) -> Result<String, NoMemory> {
    let arguments = arguments_of(alloc, line)?;
    match args(alloc, arguments.as_slice()) {
        Ok(found) => args_text(alloc, &found),
        Err(Usage::Refused) => Ok(String::from_str(alloc, "refused")?),
        Err(Usage::NoMemory) => Err(NoMemory),
    }
}

fn checksum(bytes: &[u8]) -> u64 {
    bytes.iter().fold(0xcbf2_9ce4_8422_2325, |sum: u64, byte| {
        (sum ^ u64::from(*byte)).wrapping_mul(0x100_0000_01b3)
    })
}

fn answer_to_seed(alloc: Global, line: &str) -> Result<String, NoMemory> {
    let digits = line.get(1..).unwrap_or("");
    let seed = digits.parse::<u32>().unwrap_or(0);
    let text = demo(alloc, seed)?;
    demonstration_text(alloc, text.as_str())
}

// The length and the checksum of a demonstration, and how its seventh statement begins.
fn demonstration_text(alloc: Global, text: &str) -> Result<String, NoMemory> {
    let length = text.len();
    let sum = checksum(text.as_bytes());
    let seventh = text.lines().nth(6).unwrap_or("");
    let start = seventh.get(..60).unwrap_or(seventh);
    Ok(format!(in alloc; "{length} bytes, checksum {sum}: {start}")?)
}

// What is written for one line.
fn answer(alloc: Global, line: &str) -> Result<String, NoMemory> {
    match line.as_bytes() {
        [b'@', ..] => answer_to_seed(alloc, line),
        _ => answer_to_words(alloc, line),
    }
}

// Prints what each line of a text asks for.
fn answer_lines(rt: &HostRuntime, text: &str) -> io::Result<()> {
    for line in text.lines() {
        if !line.starts_with('#') {
            print_answer(rt, answer(rt.alloc(), line))?;
        }
    }
    Ok(())
}

/// Prints what each line of a file asks for.
pub fn try_arguments(rt: &HostRuntime, path: &str) -> io::Result<()> {
    let text = fs::read_to_string(rt, path)?;
    answer_lines(rt, text.as_str())
}
