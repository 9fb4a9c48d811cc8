//! Reading list files: the versions of a module, as a proxy lists them.
//!
//! The Go Modules Reference doesn't say what to do with lines that hold no version. They are skipped, so one bad
//! line doesn't hide the other versions.

ghost use Rattle.std.specs.Prelude.{◌≡◌, ◌↔◌, ◌++◌, ◌∷◌, [], ℕ, List, IfOk, IfNone, IfSome, IsTrue, OnOk};
ghost use Rattle.std.specs.List.Sorted.{IsPermutation, IsSorted};
ghost use Rattle.gm_name.specs.Lines.{first_word};
ghost use Rattle.gm_version.specs.Version.{version_cmp};
ghost use Rattle.gm_store.specs.Listed.{AreListed, IsListable};
ghost use Rattle.gm_store.specs.Private.Versions.{HoldsListable};

use gm_name::{
    BorrowedVersion, ModPath, ModVersion, NoMemory, VersionFault, first_word, fits, pseudo,
};
use std::alloc::{AllocError, Global};

/// Whether a version may be listed for a module: it fits the path, and isn't a pseudo-version of any form.
fn is_listable(path: &ModPath, version: &ModVersion) -> bool
    ensures { IsTrue result ↔ IsListable path.now version.now }
{
    // The clauses of as_str tell the proof that the text is a version.
    let _text = version.as_str();
    match pseudo(version) {
        Some(_) => false,
        None => fits(path, version),
    }
}

/// The version that a text spells, or `None` if it isn't one that may be listed for the module. The only refusal
/// is `NoMemory`.
fn listable_text<'a>(
    alloc: Global,
    path: &ModPath,
    text: &'a str,
) -> Result<Option<BorrowedVersion<'a>>, NoMemory>
    ensures some { IfOk result (λ found. IfSome found (λ version. (version ≡ text.now)
        × IsListable path.now text.now)) }
    ensures none { IfOk result (λ found. IfNone found (¬ (IsListable path.now text.now))) }
{
    match ModVersion::parse(alloc, text) {
        Ok(version) if is_listable(path, &version) => Ok(Some(version.in_text(text))),
        Err(VersionFault::NoMemory) => Err(AllocError),
        _ => Ok(None),
    }
}

/// The version that a word spells, or `None` if it isn't one that may be listed for the module. The only refusal
/// is `NoMemory`.
fn listable_in<'a>(
    alloc: Global,
    path: &ModPath,
    word: &'a [u8],
) -> Result<Option<BorrowedVersion<'a>>, NoMemory>
    ensures some { IfOk result (λ found. IfSome found (λ version. (version ≡ word.now)
        × IsListable path.now word.now)) }
    ensures none { IfOk result (λ found. IfNone found (¬ (IsListable path.now word.now))) }
{
    // Rejects most other words by one byte, without allocating.
    if word.first() != Some(&b'v') {
        return Ok(None);
    }
    match str::from_utf8(word) {
        Ok(text) => listable_text(alloc, path, text),
        Err(_) => Ok(None),
    }
}

/// Appends the version that a line names, if it is one that may be listed for the module. The only refusal is
/// `NoMemory`.
fn push_listable<'a>(
    alloc: Global,
    path: &ModPath,
    line: &'a [u8],
    versions: &mut Vec<BorrowedVersion<'a>>,
) -> Result<(), NoMemory>
    ensures { OnOk result ((words : List (List ℕ)) → HoldsListable path.now words versions.old.items
        → HoldsListable path.now (words ++ first_word line.now ∷ []) versions.new.items) }
{
    if let Some(version) = listable_in(alloc, path, first_word(line))? {
        versions.push(version)?;
    }
    Ok(())
}

/// The length of the shortest line that names a version, `v0.0.0` with its line end.
const SHORTEST: usize = 7;

/// Room for the versions of a list: for one in each line, as far as the lines are long enough.
fn room_for(text: &[u8]) -> usize {
    let line_ends = text.iter().filter(|byte| **byte == b'\n').count();
    line_ends.min(text.len() / SHORTEST) + 1
}

/// Puts versions into ascending order. Two that are equal have the same text.
fn sort_versions<'a>(versions: &mut Vec<BorrowedVersion<'a>>)
    ensures permutation { IsPermutation versions.old.items versions.new.items }
    ensures sorted { IsSorted version_cmp versions.new.items }
{
    versions.sort_unstable();
}

/// The versions that a module's list file names, without duplicates, in ascending order (Go Modules Reference,
/// GOPROXY protocol, `$base/$module/@v/list`). They borrow their texts from the list.
///
/// The first word of each line is used if it is a canonical version, fits the path, and isn't a pseudo-version.
/// All other lines are skipped, including those whose first word isn't UTF-8. Lines end at LF; words end at a
/// space, a tab or a CR.
///
/// Time is that of sorting the lines. The only refusal is `NoMemory`.
pub fn versions_of<'a>(
    alloc: Global,
    path: &ModPath,
    text: &'a [u8],
) -> Result<Vec<BorrowedVersion<'a>>, NoMemory>
    ensures { IfOk result (λ versions. AreListed path.now text.now versions.items) }
{
    // Room that grows would be copied, and then take twice the memory.
    let mut versions = Vec::with_capacity(alloc, room_for(text))?;
    for line in text.split(|byte| *byte == b'\n') {
        push_listable(alloc, path, line, &mut versions)?;
    }
    sort_versions(&mut versions);
    versions.dedup();
    Ok(versions)
}
