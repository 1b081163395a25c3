// Cases as folders of files.
use crate::words::out_of_memory;
use beas_core::{Bytes, Text};
use outside::MemoryFiles;
use std::{fs, io};

/// Adds the name of what stands in a folder, if it is a folder or else a file, as is asked for.
fn push_name(
    rt: &HostRuntime,
    names: &mut Vec<String>,
    entry: &fs::DirEntry,
    of_folders: bool,
) -> io::Result<()> {
    if entry.file_type()?.is_dir() == of_folders {
        names.push(String::from_str(rt.alloc(), entry.file_name())?)?;
    }
    Ok(())
}

/// The names of the folders, or else of the files, in a folder, in order.
pub fn names_in(rt: &HostRuntime, folder: &str, of_folders: bool) -> io::Result<Vec<String>> {
    let mut names = Vec::new(rt.alloc());
    for entry in fs::read_dir(rt, folder)? {
        push_name(rt, &mut names, &entry?, of_folders)?;
    }
    names.sort()?;
    Ok(names)
}

/// The text of a file in a folder. A file that isn't there, or is no text, is an error.
pub fn text_in(rt: &HostRuntime, folder: &str, name: &str) -> io::Result<String> {
    let path = format!(in rt.alloc(); "{folder}/{name}")?;
    fs::read_to_string(rt, path.as_str())
}

/// Adds a file of a folder by its name.
fn add_file(
    rt: &HostRuntime,
    folder: &str,
    files: &mut MemoryFiles,
    name: String,
) -> io::Result<()> {
    let path = format!(in rt.alloc(); "{folder}/{name}")?;
    let bytes = fs::read(rt, path.as_str())?;
    files
        .add(Text::from_string(name), Bytes::from_vec(bytes))
        .map_err(out_of_memory)
}

/// All files of a folder by their names, for a session to load them.
pub fn files_in(rt: &HostRuntime, folder: &str) -> io::Result<MemoryFiles> {
    let mut files = MemoryFiles::new(rt.alloc());
    for name in names_in(rt, folder, false)? {
        add_file(rt, folder, &mut files, name)?;
    }
    Ok(files)
}
