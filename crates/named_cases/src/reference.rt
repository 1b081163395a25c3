// What the reference programs give for named cases.
use crate::input::{error_of, say_wrong};
use crate::shown::show_case;
use named_blocks::{NamedCase, Wrong, cases_of};
use std::{fs, io};

/// Prints what they give for each case, one after another.
fn show_cases(rt: &HostRuntime, cases: &[NamedCase]) -> io::Result<()> {
    for case in cases.iter() {
        match show_case(rt.alloc(), case) {
            Ok(shown) => print!(rt; "{shown}")?,
            Err(Wrong::Line(_)) => println!(rt; "case {} has no query", case.name)?,
            Err(wrong) => return Err(error_of(wrong)),
        }
    }
    Ok(())
}

/// Prints what they give for each case of a file.
pub fn show_reference(rt: &HostRuntime, path: &str) -> io::Result<()> {
    let text = fs::read_to_string(rt, path)?;
    match cases_of(rt.alloc(), text.as_str()) {
        Ok(cases) => show_cases(rt, &cases),
        Err(wrong) => say_wrong(rt, wrong),
    }
}
