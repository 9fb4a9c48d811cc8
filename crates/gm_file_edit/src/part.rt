//! Parsing the arguments of operations.
//!
//! Each `read_` function fails with `OpFault::Spelling` if and only if the text isn't such an argument, unless memory
//! runs out.

ghost use Rattle.std.specs.Prelude.{◌≡◌, ◌<◌, true};
ghost use Rattle.std.specs.String.{string_bytes};
ghost use Rattle.gm_file.specs.Views.{interval_view, replace_view, right_view};
ghost use Rattle.gm_file_edit.specs.Edits.{inside_brackets, interval_in, is_bracketed, go_text_in, left_in, pair_in, path_in, replacing_in, right_in, trim, two_versions_in, version_in};
ghost use Rattle.gm_file_edit.specs.Sound.{left_view};
ghost use Rattle.gm_file_edit.specs.Private.Sound.{IsParsedPart, split_view};
ghost use Rattle.gm_operation.specs.Operations.{split_at_byte};

use crate::fault::OpFault;
use gm_file::{Interval, Replace, Right, is_folder, strict_go};
use gm_name::{ModPath, ModVersion, PathFault, VersionFault};
use std::alloc::Global;

/// The left side of a `replace`.
#[derive(Drop)]
pub(crate) struct LeftSide {
    /// The module path that is replaced.
    pub(crate) path: ModPath,
    /// The only version that is replaced, or `None` for all versions of the path.
    pub(crate) version: Option<ModVersion>,
}

/// Splits a text at the first of an ASCII character, which is in neither part.
pub(crate) fn split_at(text: &str, sign: char) -> Option<(&str, &str)>
    requires { sign < 128 }
    ensures { split_view result ≡ split_at_byte sign text.now }
{
    text.split_once(sign)
}

/// Parses a module path.
pub(crate) fn read_path(alloc: Global, text: &str) -> Result<ModPath, OpFault>
    ensures { IsParsedPart (λ path. path) (path_in text.now) result }
{
    match ModPath::parse(alloc, text) {
        Ok(path) => Ok(path),
        Err(PathFault::NoMemory) => Err(OpFault::NoMemory),
        Err(PathFault::BadPath) => Err(OpFault::Spelling),
    }
}

/// Parses a canonical version.
fn read_version(alloc: Global, text: &str) -> Result<ModVersion, OpFault>
    ensures { IsParsedPart (λ version. version) (version_in text.now) result }
{
    match ModVersion::parse(alloc, text) {
        Ok(version) => Ok(version),
        Err(VersionFault::NoMemory) => Err(OpFault::NoMemory),
        Err(VersionFault::BadVersion) => Err(OpFault::Spelling),
        Err(VersionFault::NotCanonical) => Err(OpFault::Spelling),
    }
}

/// Copies a go version that strict reading of a main file accepts.
pub(crate) fn read_go(alloc: Global, text: &str) -> Result<String, OpFault>
    ensures { IsParsedPart string_bytes (go_text_in text.now) result }
{
    match strict_go(text) {
        Some(_) => Ok(String::from_str(alloc, text)?),
        None => Err(OpFault::Spelling),
    }
}

/// Parses a path, `@` and a version.
#[tactic(auto, unfolding(crate::specs::Edits::pair_in))]
pub(crate) fn read_pair(alloc: Global, text: &str) -> Result<(ModPath, ModVersion), OpFault>
    ensures { IsParsedPart (λ pair. pair) (pair_in text.now) result }
{
    let Some((path, version)) = split_at(text, '@') else {
        return Err(OpFault::Spelling);
    };
    let path = read_path(alloc, path)?;
    let version = read_version(alloc, version)?;
    Ok((path, version))
}

/// Parses the left side of a `replace`: a path, optionally with `@` and a version.
#[tactic(auto, unfolding(crate::specs::Edits::left_in))]
pub(crate) fn read_left(alloc: Global, text: &str) -> Result<LeftSide, OpFault>
    ensures { IsParsedPart left_view (left_in text.now) result }
{
    if text.as_bytes().contains(&b'@') {
        let (path, version) = read_pair(alloc, text)?;
        return Ok(LeftSide {
            path,
            version: Some(version),
        });
    }
    let path = read_path(alloc, text)?;
    Ok(LeftSide {
        path,
        version: None,
    })
}

/// Parses the right side of a `replace`: a folder, taken verbatim, or a path, `@` and a version. A folder with a line
/// feed is refused, since a word that an edit makes can't hold one.
#[tactic(auto, unfolding(crate::specs::Edits::right_in))]
fn read_right(alloc: Global, text: &str) -> Result<Right, OpFault>
    ensures { IsParsedPart right_view (right_in text.now) result }
{
    if is_folder(text) {
        if text.as_bytes().contains(&b'\n') {
            return Err(OpFault::Spelling);
        }
        return Ok(Right::Folder(String::from_str(alloc, text)?));
    }
    let (path, version) = read_pair(alloc, text)?;
    Ok(Right::Module(path, version))
}

/// Parses a left side, `=` and a right side. The first `=` separates them.
#[tactic(auto, unfolding(crate::specs::Edits::replacing_in))]
pub(crate) fn read_replace(alloc: Global, text: &str) -> Result<Replace, OpFault>
    ensures { IsParsedPart replace_view (replacing_in text.now) result }
{
    let Some((left, right)) = split_at(text, '=') else {
        return Err(OpFault::Spelling);
    };
    let LeftSide { path, version } = read_left(alloc, left)?;
    let right = read_right(alloc, right)?;
    Ok(Replace {
        left: path,
        version,
        right,
    })
}

/// The text without the spaces and tabs at its start and its end.
#[tactic(auto, unfolding(crate::specs::Edits::trim))]
fn trim(text: &str) -> &str
    ensures { result.now ≡ trim text.now }
{
    text.trim_start_matches([' ', '\t'])
        .trim_end_matches([' ', '\t'])
}

/// Whether a text starts with `[` and ends with another byte, `]`.
fn is_bracketed(text: &[u8]) -> bool
    ensures { result ≡ is_bracketed text.now }
{
    text.len() > 1 && text[0] == b'[' && text[text.len() - 1] == b']'
}

/// The text between the brackets.
fn inside_brackets(text: &str) -> &str
    requires { is_bracketed text.now ≡ true }
    ensures { result.now ≡ inside_brackets text.now }
{
    let (_, rest) = text.split_at(1);
    let (inside, _) = rest.split_at(rest.len() - 1);
    inside
}

/// Parses two versions separated by a comma, with spaces and tabs allowed around each.
fn read_two_versions(alloc: Global, text: &str) -> Result<Interval, OpFault>
    ensures { IsParsedPart interval_view (two_versions_in text.now) result }
{
    let Some((low, high)) = split_at(text, ',') else {
        return Err(OpFault::Spelling);
    };
    let low = read_version(alloc, trim(low))?;
    let high = read_version(alloc, trim(high))?;
    Ok(Interval { low, high })
}

/// Parses an interval: two versions in brackets, or one version that is both ends.
#[tactic(auto, unfolding(crate::specs::Edits::interval_in))]
pub(crate) fn read_interval(alloc: Global, text: &str) -> Result<Interval, OpFault>
    ensures { IsParsedPart interval_view (interval_in text.now) result }
{
    if is_bracketed(text.as_bytes()) {
        return read_two_versions(alloc, inside_brackets(text));
    }
    let low = read_version(alloc, text)?;
    let high = low.copy(alloc)?;
    Ok(Interval { low, high })
}
