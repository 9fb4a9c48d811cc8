//! Versions of modules.
//!
//! A `ModVersion` is tested once, when it is read, so code that takes one needs no tests of its own.

ghost use Rattle.std.specs.Prelude.{◌≡◌, ◌↔◌, ◌∷◌, ℕ, [], IfOk, IsTrue, codes, nat_eq, refl, Some, true, MatchBool};
ghost use Rattle.std.proofs.Common.{rules};
ghost use Rattle.std.specs.Cmp.{partial_equiv_from_equiv};
ghost use Rattle.std.specs.Cmp.Rules.{hashing};
ghost use Rattle.std.specs.Cmp.Lexicographic.{nat_list_eq_equiv, pointwise};
ghost use Rattle.std.specs.Hash as fed;
ghost use Rattle.semver.specs.Identifiers.{parts_of};
ghost use Rattle.semver.specs.Grammar.{is_pre_release};
ghost use Rattle.semver.specs.Parse.{memory_error};
ghost use Rattle.gm_version.specs.NameText.{text_bytes};
ghost use Rattle.gm_version.specs.Readings.{VersionReading};
ghost use Rattle.gm_version.specs.Version.{HasPlainBuild, IsShortVersion, IsVersion, build_of, major_of, parts_in, precedence, version_cmp, version_text};
ghost use Rattle.gm_version.specs.VersionOrder.{version_po, version_ties, version_total};
ghost use Rattle.gm_version.specs.declared.version.VersionFault.TheVariants.{NoMemory};

use crate::name_text::NameText;
use crate::number::is_number;
use semver::{Prerelease, Version};
use std::alloc::{AllocError, Global};
use std::cmp::Ordering;
use std::fmt;
use std::hash::{Hash, Hasher};
use std::marker::Model;
use std::rc::Rc;
use thiserror::Error;

/// Why `ModVersion::parse` returned no version.
#[derive(Clone, Copy, Debug, PartialEq, Eq, Error)]
pub enum VersionFault {
    /// Memory ran out.
    #[error("out of memory")]
    NoMemory,
    /// The text isn't a version, not even a non-canonical one.
    #[error("not a version")]
    BadVersion,
    /// The text is `v` with one or two numbers, or a version with a build other than `incompatible`.
    #[error("not a canonical version")]
    NotCanonical,
}

impl From<AllocError> for VersionFault {
    ghost from_gives = { λ _ fault. fault ≡ NoMemory };

    fn from(_error: AllocError) -> VersionFault {
        VersionFault::NoMemory
    }
}

/// What the copies of a version share.
#[derive(Drop)]
struct ReadVersion {
    /// The version with its `v`.
    text: NameText,
    /// The SemVer version after the `v`.
    read: Version,
}

/// A version (Go Modules Reference, "Versions"): `v` and a version of SemVer 2.0.0 whose three numbers are
/// below 2^64, with no build or the build `incompatible`.
///
/// Versions are equal when their texts are. They are ordered by SemVer's precedence, and by their bytes if that
/// is equal.
#[derive(Drop)]
pub struct ModVersion {
    /// The text, and the SemVer version read from it.
    shared: Rc<ReadVersion>,
}

impl Model for ModVersion {
    ghost use Rattle.std.specs.Prelude.{◌≡◌, List, ℕ, Ok, drop};
    ghost use Rattle.semver.specs.Identifiers.{parts_of};
    ghost use Rattle.semver.specs.Parse.{version_parts};
    ghost use Rattle.gm_version.specs.NameText.{text_bytes};
    ghost use Rattle.gm_version.specs.Version.{IsVersion};

    ghost Value = { List ℕ };

    ghost view = { λ a. text_bytes a.shared.value.text };

    ghost invariant = { λ a. IsVersion (text_bytes a.shared.value.text)
        × (version_parts (drop 1 (text_bytes a.shared.value.text)) ≡ Ok (parts_of a.shared.value.read)) };
}

/// The part of a version that its copies share: its text and the SemVer version read from it. Fails only when
/// memory runs out.
fn shared_of_text(alloc: Global, text: &str, read: Version) -> Result<Rc<ReadVersion>, AllocError>
    ensures text { IfOk result (λ version. text_bytes version.value.text ≡ text.now) }
    ensures read { IfOk result (λ version. version.value.read ≡ read) }
{
    let text = NameText::new(alloc, text)?;
    Ok(Rc::new(alloc, ReadVersion { text, read })?)
}

/// The shared part of a version that is written from its SemVer version. Fails only when memory runs out.
fn shared_of_parts(alloc: Global, read: Version) -> Result<Rc<ReadVersion>, AllocError>
    ensures text { IfOk result (λ version. text_bytes version.value.text ≡ version_text (parts_of read)) }
    ensures read { IfOk result (λ version. version.value.read ≡ read) }
{
    let text = format!(in alloc; "v{read}")?;
    shared_of_text(alloc, text.as_str(), read)
}

/// Whether a text is one number, or two joined by a dot.
fn is_short(text: &str) -> bool
    ensures { IsTrue result ↔ IsShortVersion (118 ∷ text.now) }
{
    match text.split_once('.') {
        Some((major, minor)) => is_number(major) && is_number(minor),
        None => is_number(text),
    }
}

/// Whether a version has no build or the build `incompatible`.
fn has_plain_build(version: &Version) -> bool
    ensures { IsTrue result ↔ HasPlainBuild (parts_of version.now) }
{
    version.build.is_empty() || version.build.as_str() == "incompatible"
}

/// Whether reading failed because memory ran out.
fn is_out_of_memory(error: semver::Error) -> bool
    ensures { IsTrue result ↔ (error ≡ memory_error) }
{
    error == semver::Error::from(AllocError)
}

impl ModVersion {
    /// The version in a text.
    ///
    /// `NotCanonical` if the text is `v` and one number, or two joined by a dot (without leading zeros and
    /// below 2^64), or a version with another build. `BadVersion` for every other text that isn't a version.
    /// `NoMemory` only on `v` and a SemVer version, with any build.
    // Inlined, so that its result is made in its place.
    #[inline(always)]
    pub fn parse(alloc: Global, text: &str) -> Result<ModVersion, VersionFault>
        ensures { VersionReading text.now result }
    {
        let Some(rest) = text.strip_prefix('v') else {
            return Err(VersionFault::BadVersion);
        };
        match Version::parse(alloc, rest) {
            Ok(read) => {
                if !has_plain_build(&read) {
                    return Err(VersionFault::NotCanonical);
                }
                Ok(ModVersion {
                    shared: shared_of_text(alloc, text, read)?,
                })
            }
            Err(error) => {
                if is_out_of_memory(error) {
                    Err(VersionFault::NoMemory)
                } else if is_short(rest) {
                    Err(VersionFault::NotCanonical)
                } else {
                    Err(VersionFault::BadVersion)
                }
            }
        }
    }

    /// The text of the version, as it was read.
    pub fn as_str(&self) -> &str
        ensures text { result.now ≡ self.now }
        ensures version { IsVersion self.now }
    {
        self.shared.text.as_str()
    }

    /// The major number.
    pub fn major(&self) -> u64
        ensures { result ≡ major_of self.now }
    {
        self.shared.read.major
    }

    /// The minor number.
    pub fn minor(&self) -> u64
        ensures { result ≡ (parts_in self.now).1 }
    {
        self.shared.read.minor
    }

    /// The patch number.
    pub fn patch(&self) -> u64
        ensures { result ≡ (parts_in self.now).2 }
    {
        self.shared.read.patch
    }

    /// The pre-release.
    pub fn pre(&self) -> &str
        ensures text { result.now ≡ (parts_in self.now).3 }
        ensures valid { is_pre_release result.now ≡ true }
    {
        self.shared.read.pre.as_str()
    }

    /// Whether there is no build. Otherwise the build is `incompatible`.
    pub fn has_no_build(&self) -> bool
        ensures { MatchBool result (build_of self.now ≡ []) (build_of self.now ≡ codes "incompatible") }
    {
        self.shared.read.build.is_empty()
    }

    /// Whether the version is a release: whether it has no pre-release (SemVer 2.0.0, section 9). Builds don't
    /// count. Allocates no memory.
    pub fn is_release(&self) -> bool
        ensures { IsTrue result ↔ ((parts_in self.now).3 ≡ []) }
    {
        self.shared.read.pre.is_empty()
    }

    /// The version with this patch number and pre-release, and the other parts of this one. `pre` must be a
    /// valid pre-release. Fails only when memory runs out.
    pub fn with(&self, alloc: Global, patch: u64, pre: &str) -> Result<ModVersion, AllocError>
        requires { is_pre_release pre.now ≡ true }
        ensures { IfOk result (λ version. let p = parts_in self.now in
            version ≡ version_text (p.0, p.1, patch, pre.now, p.4)) }
    {
        // `pre` is a valid pre-release, so this fails only when memory runs out.
        let Ok(pre) = Prerelease::new(alloc, pre) else {
            return Err(AllocError);
        };
        let old = &self.shared.read;
        let read = Version {
            major: old.major,
            minor: old.minor,
            patch,
            pre,
            build: old.build.clone()?,
        };
        Ok(ModVersion {
            shared: shared_of_parts(alloc, read)?,
        })
    }

    /// The order by SemVer's precedence alone (SemVer 2.0.0, section 11), in which builds don't count.
    /// Allocates no memory.
    pub fn precedence(&self, other: &ModVersion) -> Ordering
        ensures { result ≡ precedence (parts_in self.now) (parts_in other.now) }
    {
        self.shared.read.cmp_precedence(&other.shared.read)
    }

    /// An equal version, which shares the text of this one. Allocates no memory; it fails only if one version
    /// already has as many copies as a `usize` can count.
    pub fn copy(&self, alloc: Global) -> Result<ModVersion, AllocError>
        ensures { IfOk result (λ version. version ≡ self.now) }
    {
        Ok(ModVersion {
            shared: self.shared.clone()?,
        })
    }
}

impl fmt::Debug for ModVersion {
    fn fmt<W: fmt::Write>(&self, f: &mut fmt::Formatter<W>) -> fmt::Result {
        fmt::Debug::fmt(self.as_str(), f)
    }
}

impl fmt::Display for ModVersion {
    ghost output = { λ version. Some version };

    fn fmt<W: fmt::Write>(&self, f: &mut fmt::Formatter<W>) -> fmt::Result {
        f.write_str(self.as_str())
    }
}

impl PartialEq for ModVersion {
    ghost eq = { pointwise nat_eq };

    ghost laws = { partial_equiv_from_equiv nat_list_eq_equiv };

    fn eq(&self, other: &ModVersion) -> bool {
        self.as_str() == other.as_str()
    }
}

impl Eq for ModVersion {
    ghost laws = { nat_list_eq_equiv };
}

impl Hash for ModVersion {
    ghost hash_input = { fed.str };

    ghost respects_eq = { Prim.search (hashing, rules) };

    fn hash<H: Hasher>(&self, state: &mut H) {
        self.as_str().hash(state);
    }
}

impl PartialOrd for ModVersion {
    ghost partial_cmp = { λ a b. Some (version_cmp a b) };

    ghost laws = { version_po };

    fn partial_cmp(&self, other: &ModVersion) -> Option<Ordering> {
        Some(self.cmp(other))
    }
}

impl Ord for ModVersion {
    ghost cmp = { version_cmp };

    ghost total = { version_total };

    ghost matches_partial_cmp = { λ a b. refl };

    ghost matches_eq = { version_ties };

    fn cmp(&self, other: &ModVersion) -> Ordering {
        self.precedence(other)
            .then_with(|| self.as_str().cmp(other.as_str()))
    }
}
