//! Calls about hashes and sums, lists of versions, and the places of files.

use crate::call_faults::CallFault;
use crate::name_calls::{path_and_version, push_line};
use gm_name::{BorrowedVersion, ModPath, ModVersion};
use gm_store::{FileName, Looked, Mark, Next};
use gm_store_sums::{Sum, SumTable};
use std::alloc::{AllocError, Global};

/// Appends the hash of a file as the go.mod of a module.
pub(crate) fn hash(alloc: Global, text: &mut String, bytes: &[u8]) -> Result<(), CallFault> {
    let hash = gm_store_sums::mod_hash(alloc, bytes)?;
    push_line(text, hash.as_str())
}

/// Appends what a go.sum says of a hash.
pub(crate) fn check(
    alloc: Global,
    text: &mut String,
    bytes: &[u8],
    pair: (&str, &str),
    hash: &str,
) -> Result<(), CallFault> {
    let (path, version) = path_and_version(alloc, pair)?;
    check_of(alloc, text, bytes, &path, &version, hash)
}

/// Appends what a go.sum says of the hash of a version.
fn check_of(
    alloc: Global,
    text: &mut String,
    bytes: &[u8],
    path: &ModPath,
    version: &ModVersion,
    hash: &str,
) -> Result<(), CallFault> {
    let table = SumTable::read(alloc, bytes)?;
    push_sum(text, table.check(path, version, hash))
}

/// Appends what a go.sum says.
fn push_sum(text: &mut String, sum: Sum) -> Result<(), CallFault> {
    Ok(writeln!(text, "{sum:?}")?)
}

/// Appends what a call about a module's list of versions gives.
pub(crate) fn about_list(
    alloc: Global,
    text: &mut String,
    name: &str,
    path: &str,
    bytes: &[u8],
) -> Result<(), CallFault> {
    let path = ModPath::parse(alloc, path)?;
    about_list_of(alloc, text, name, &path, bytes)
}

/// Appends what a call about the list of versions of a path gives.
fn about_list_of(
    alloc: Global,
    text: &mut String,
    name: &str,
    path: &ModPath,
    bytes: &[u8],
) -> Result<(), CallFault> {
    let versions = gm_store::versions_of(alloc, path, bytes)?;
    match name {
        "listed" => Ok(push_versions(text, versions.as_slice())?),
        _ => push_latest(alloc, text, versions.as_slice()),
    }
}

/// Appends versions, one a line.
fn push_versions(text: &mut String, versions: &[BorrowedVersion<'_>]) -> Result<(), AllocError> {
    for version in versions {
        let version = version.as_str();
        writeln!(text, "{version}")?;
    }
    Ok(())
}

/// Appends the latest of these versions.
fn push_latest(
    alloc: Global,
    text: &mut String,
    versions: &[BorrowedVersion<'_>],
) -> Result<(), CallFault> {
    match gm_store::latest(versions) {
        Some(version) => push_line(text, version.to_version(alloc)?.as_str()),
        None => push_line(text, "none"),
    }
}

/// Appends the place of the file of a name.
fn push_place(alloc: Global, text: &mut String, name: &FileName) -> Result<(), CallFault> {
    let place = gm_store::relative_name(alloc, name)?;
    push_line(text, place.as_str())
}

/// Appends the place of the .mod file of a version.
pub(crate) fn place_of_version(
    alloc: Global,
    text: &mut String,
    pair: (&str, &str),
) -> Result<(), CallFault> {
    let (path, version) = path_and_version(alloc, pair)?;
    push_place(alloc, text, &FileName::Mod(path, version))
}

/// Appends the place of a file of another kind.
pub(crate) fn place_named(
    alloc: Global,
    text: &mut String,
    kind: &str,
    name: &str,
) -> Result<(), CallFault> {
    match kind {
        "list" => place_of_list(alloc, text, name),
        "folder" => place_in_folder(alloc, text, name),
        _ => Err(CallFault::NoCall),
    }
}

/// Appends the place of the list of a module's versions.
fn place_of_list(alloc: Global, text: &mut String, path: &str) -> Result<(), CallFault> {
    let path = ModPath::parse(alloc, path)?;
    push_place(alloc, text, &FileName::List(path))
}

/// Appends the place of the go.mod of a folder.
fn place_in_folder(alloc: Global, text: &mut String, folder: &str) -> Result<(), CallFault> {
    let folder = String::from_str(alloc, folder)?;
    push_place(alloc, text, &FileName::Folder(folder))
}

/// Appends the folder of a file.
pub(crate) fn folder_of(alloc: Global, text: &mut String, file: &str) -> Result<(), CallFault> {
    let folder = gm_store::folder_of(alloc, file)?;
    push_line(text, folder.as_str())
}

/// What a lookup in a folder found, by its name.
fn looked_named(alloc: Global, name: &str) -> Option<Looked> {
    match name {
        "Found" => Some(Looked::Found(Vec::new(alloc))),
        "TooLong" => Some(Looked::TooLong),
        "Absent" => Some(Looked::Absent),
        "Failed" => Some(Looked::Failed),
        _ => None,
    }
}

/// What follows a folder: a mark, or nothing after the last one.
fn mark_named(name: &str) -> Option<Option<Mark>> {
    match name {
        "comma" => Some(Some(Mark::Comma)),
        "bar" => Some(Some(Mark::Bar)),
        "last" => Some(None),
        _ => None,
    }
}

/// Appends what follows a lookup.
fn push_next(text: &mut String, next: Next) -> Result<(), CallFault> {
    Ok(writeln!(text, "{next:?}")?)
}

/// Appends what follows a lookup in a folder.
pub(crate) fn step(
    alloc: Global,
    text: &mut String,
    looked: &str,
    mark: &str,
) -> Result<(), CallFault> {
    let (Some(looked), Some(mark)) = (looked_named(alloc, looked), mark_named(mark)) else {
        return Err(CallFault::NoCall);
    };
    push_next(text, gm_store::step(&looked, mark))
}
