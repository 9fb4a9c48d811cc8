//! The real folders that the commands of a case run in.

use crate::cases::{Case, CaseFile, Content, STDIN};
use std::fs::Permissions;
use std::os::unix::fs::PermissionsExt;
use std::{env, fs, io, process};

/// The name of the folder of a case, among the temporary files of the system. One case runs at a time.
fn folder_name(rt: &HostRuntime) -> io::Result<String> {
    let id = process::id(rt.process());
    let system = env::temp_dir(rt)?;
    Ok(format!(in rt.alloc(); "{}/gomod_cases_{id}", system.as_str())?)
}

/// Makes a new, empty folder.
pub fn make_folder(rt: &HostRuntime) -> io::Result<String> {
    let folder = folder_name(rt)?;
    // what an earlier process of this number may have left
    let _ = fs::remove_dir_all(rt, folder.as_str());
    fs::create_dir_all(rt, folder.as_str())?;
    Ok(folder)
}

/// Writes the files of a case into a folder.
pub fn lay_files(rt: &HostRuntime, folder: &str, case: &Case<'_>) -> io::Result<()> {
    fs::create_dir_all(rt, folder)?;
    for file in &case.files {
        if file.name.as_str() != STDIN {
            lay_file(rt, folder, file)?;
        }
    }
    Ok(())
}

/// Writes a file of a case into a folder.
fn lay_file(rt: &HostRuntime, folder: &str, file: &CaseFile) -> io::Result<()> {
    let name = file.name.as_str();
    let place = format!(in rt.alloc(); "{folder}/{name}")?;
    lay_at(rt, place.as_str(), file)
}

/// Writes a file of a case to its place.
fn lay_at(rt: &HostRuntime, place: &str, file: &CaseFile) -> io::Result<()> {
    if let Some((parent, _)) = place.rsplit_once('/') {
        fs::create_dir_all(rt, parent)?;
    }
    lay_content(rt, place, &file.content)?;
    match file.mode {
        Some(mode) => fs::set_permissions(rt, place, Permissions::from_mode(mode)),
        None => Ok(()),
    }
}

/// Writes what a case has at a place.
fn lay_content(rt: &HostRuntime, place: &str, content: &Content) -> io::Result<()> {
    match content {
        Content::Bytes(bytes) => fs::write(rt, place, bytes.as_slice()),
        Content::Folder => fs::create_dir_all(rt, place),
        Content::Link(to) => std::os::unix::fs::symlink(rt, to.as_str(), place),
        Content::Copy(_) => Ok(()),
    }
}
