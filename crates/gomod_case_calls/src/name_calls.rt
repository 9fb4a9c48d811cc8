//! Calls about names: module paths, versions, and pairs of them.

use crate::call_faults::CallFault;
use gm_name::{Major, ModPath, ModVer, ModVersion, Pseudo};
use std::alloc::Global;
use std::cmp::Ordering;

/// Appends a line.
pub(crate) fn push_line(text: &mut String, line: &str) -> Result<(), CallFault> {
    text.push_str(line)?;
    Ok(text.push('\n')?)
}

/// The path and the version that two texts spell.
pub(crate) fn path_and_version(
    alloc: Global,
    pair: (&str, &str),
) -> Result<(ModPath, ModVersion), CallFault> {
    let path = ModPath::parse(alloc, pair.0)?;
    Ok((path, ModVersion::parse(alloc, pair.1)?))
}

/// The path and the version that two texts spell, if the version fits the path.
pub(crate) fn pair(alloc: Global, pair: (&str, &str)) -> Result<ModVer, CallFault> {
    let (path, version) = path_and_version(alloc, pair)?;
    match ModVer::pair(path, version) {
        Some(pair) => Ok(pair),
        None => Err(CallFault::Argument("Misfit")),
    }
}

/// Appends the result of a test.
pub(crate) fn push_test(text: &mut String, is_true: bool) -> Result<(), CallFault> {
    push_line(text, if is_true { "yes" } else { "no" })
}

/// Appends the suffix of a module path, and whether it is fetchable.
pub(crate) fn path(alloc: Global, text: &mut String, path: &str) -> Result<(), CallFault> {
    let path = ModPath::parse(alloc, path)?;
    push_suffix(text, path.major(), path.is_fetchable())
}

/// Appends a suffix, and whether its path is fetchable.
fn push_suffix(text: &mut String, major: Major, is_fetchable: bool) -> Result<(), CallFault> {
    let fetchable = if is_fetchable { " fetchable" } else { "" };
    Ok(writeln!(text, "{major:?}{fetchable}")?)
}

/// Appends the kind of a version.
pub(crate) fn version(alloc: Global, text: &mut String, version: &str) -> Result<(), CallFault> {
    let version = ModVersion::parse(alloc, version)?;
    let is_release = version.is_release();
    push_line(text, if is_release { "release" } else { "prerelease" })
}

/// Appends whether a version fits a path.
pub(crate) fn fits(
    alloc: Global,
    text: &mut String,
    path: &str,
    version: &str,
) -> Result<(), CallFault> {
    let (path, version) = path_and_version(alloc, (path, version))?;
    push_test(text, gm_name::fits(&path, &version))
}

/// Appends what a pseudo-version says of its commit.
pub(crate) fn pseudo(alloc: Global, text: &mut String, version: &str) -> Result<(), CallFault> {
    let version = ModVersion::parse(alloc, version)?;
    match gm_name::pseudo(&version) {
        Some(commit) => push_commit(text, &commit),
        None => push_line(text, "none"),
    }
}

/// Appends what a pseudo-version says of its commit.
fn push_commit(text: &mut String, commit: &Pseudo) -> Result<(), CallFault> {
    let (form, time, revision) = (commit.form, commit.time, commit.revision);
    Ok(writeln!(text, "{form} {time} {revision}")?)
}

/// Appends the base version of a pseudo-version.
pub(crate) fn base(alloc: Global, text: &mut String, version: &str) -> Result<(), CallFault> {
    let version = ModVersion::parse(alloc, version)?;
    match gm_name::base(alloc, &version)? {
        Some(base) => push_line(text, base.as_str()),
        None => push_line(text, "none"),
    }
}

/// Appends the escaped name.
pub(crate) fn escape(alloc: Global, text: &mut String, name: &str) -> Result<(), CallFault> {
    let escaped = gm_name::escape(alloc, name)?;
    push_line(text, escaped.as_str())
}

/// Appends the text that escapes to this name.
pub(crate) fn unescape(alloc: Global, text: &mut String, name: &str) -> Result<(), CallFault> {
    let unescaped = gm_name::unescape(alloc, name)?;
    push_line(text, unescaped.as_str())
}

/// Appends how two things are ordered.
fn push_ordering(text: &mut String, ordering: Ordering) -> Result<(), CallFault> {
    let order = match ordering {
        Ordering::Less => "less",
        Ordering::Equal => "equal",
        Ordering::Greater => "greater",
    };
    push_line(text, order)
}

/// The versions that two texts spell.
fn two_versions(
    alloc: Global,
    one: &str,
    other: &str,
) -> Result<(ModVersion, ModVersion), CallFault> {
    let one = ModVersion::parse(alloc, one)?;
    Ok((one, ModVersion::parse(alloc, other)?))
}

/// Appends the order of two versions, by their precedence and then by their texts.
pub(crate) fn order(
    alloc: Global,
    text: &mut String,
    version: &str,
    other: &str,
) -> Result<(), CallFault> {
    let (version, other) = two_versions(alloc, version, other)?;
    push_ordering(text, version.cmp(&other))
}

/// Appends the order of two versions by their precedence alone.
pub(crate) fn precedence(
    alloc: Global,
    text: &mut String,
    version: &str,
    other: &str,
) -> Result<(), CallFault> {
    let (version, other) = two_versions(alloc, version, other)?;
    push_ordering(text, version.precedence(&other))
}

/// Appends the order of two pairs of a path and a version.
pub(crate) fn order_of_pairs(
    alloc: Global,
    text: &mut String,
    one: (&str, &str),
    other: (&str, &str),
) -> Result<(), CallFault> {
    let one = pair(alloc, one)?;
    let other = pair(alloc, other)?;
    push_ordering(text, one.cmp(&other))
}
