//! The order of pre-releases as texts.
//!
//! `semver` orders pre-releases that it has read, each of which has its text in a block of memory of its own. A
//! pre-release in a borrowed text is compared in place.

ghost use Rattle.std.specs.Prelude.{◌≡◌, ◌≤◌, length};
ghost use Rattle.std.specs.Cmp.Lexicographic.{slice_cmp};
ghost use Rattle.semver.specs.Order.{part_length, parts, pre_cmp, pre_part_cmp};
ghost use Rattle.gm_version.specs.Version.{IsVersion, parts_in};

use crate::number::has_only_digits;
use std::cmp::Ordering;

/// The pre-release in the text of a version: what follows the first `-`, up to a `+`. Empty if there is none.
pub fn pre_release_in(version: &str) -> &str
    requires { IsVersion version.now }
    ensures { result.now ≡ (parts_in version.now).3 }
{
    let Some((_, rest)) = version.split_once('-') else {
        return "";
    };
    match rest.split_once('+') {
        Some((pre_release, _)) => pre_release,
        None => rest,
    }
}

/// The length of a text's first identifier, which ends at a dot.
fn identifier_len(text: &[u8]) -> usize
    ensures value { result ≡ part_length text.now }
    ensures fits { result ≤ length text.now }
{
    'bytes: for place in 0..text.len() {
        if text[place] == b'.' {
            return place;
        }
    }
    text.len()
}

/// The order of two identifiers (SemVer 2.0.0, section 11.4). Numbers have no leading zeros, so the longer one is
/// the greater one.
fn compare_identifiers(one: &[u8], other: &[u8]) -> Ordering
    ensures { result ≡ pre_part_cmp one.now other.now }
{
    match (has_only_digits(one), has_only_digits(other)) {
        (true, true) => one.len().cmp(&other.len()).then(one.cmp(other)),
        (true, false) => Ordering::Less,
        (false, true) => Ordering::Greater,
        (false, false) => one.cmp(other),
    }
}

/// The order of two texts by the first of their identifiers that differ. A text that ends first comes first.
fn compare_by_identifiers(one: &[u8], other: &[u8]) -> Ordering
    ensures { result ≡ slice_cmp pre_part_cmp (parts one.now) (parts other.now) }
{
    if one == other {
        return Ordering::Equal;
    }
    let (mut ours, mut theirs) = (one, other);
    'identifiers: loop {
        let (our_len, their_len) = (identifier_len(ours), identifier_len(theirs));
        let ordering = compare_identifiers(&ours[..our_len], &theirs[..their_len]);
        if ordering != Ordering::Equal {
            return ordering;
        }
        if our_len == ours.len() {
            return if their_len == theirs.len() {
                Ordering::Equal
            } else {
                Ordering::Less
            };
        }
        if their_len == theirs.len() {
            return Ordering::Greater;
        }
        ours = &ours[our_len + 1..];
        theirs = &theirs[their_len + 1..];
    }
}

/// The order of two pre-releases. One that is empty, as that of a release is, comes after all others.
pub fn compare_pre_releases(one: &str, other: &str) -> Ordering
    ensures { result ≡ pre_cmp one.now other.now }
{
    if one.is_empty() {
        return if other.is_empty() {
            Ordering::Equal
        } else {
            Ordering::Greater
        };
    }
    if other.is_empty() {
        return Ordering::Less;
    }
    compare_by_identifiers(one.as_bytes(), other.as_bytes())
}
