//! Versions whose texts are borrowed.
//!
//! A `ModVersion` has a block of memory of its own, of some 150 bytes. A version of a long list borrows its text from
//! the list, and takes 40.

ghost use Rattle.std.specs.Prelude.{◌≡◌, ◌↔◌, [], nat_eq, refl, IfOk, IsTrue, Some};
ghost use Rattle.std.specs.Cmp.{partial_equiv_from_equiv};
ghost use Rattle.std.specs.Cmp.Lexicographic.{nat_list_eq_equiv, pointwise};
ghost use Rattle.gm_version.specs.Version.{IsVersion, parts_in, precedence, version_cmp};
ghost use Rattle.gm_version.specs.VersionOrder.{version_po, version_ties, version_total};

use crate::pre_release::{compare_pre_releases, pre_release_in};
use crate::version::ModVersion;
use std::alloc::{AllocError, Global};
use std::cmp::Ordering;
use std::marker::Model;

/// A version whose text is borrowed, with its three numbers. Versions are equal and ordered as `ModVersion`s are.
#[derive(Drop)]
pub struct BorrowedVersion<'a> {
    /// The text.
    text: &'a str,
    /// The major number.
    major: u64,
    /// The minor number.
    minor: u64,
    /// The patch number.
    patch: u64,
}

impl<'a> Model for BorrowedVersion<'a> {
    ghost use Rattle.std.specs.Prelude.{◌≡◌, List, ℕ};
    ghost use Rattle.gm_version.specs.Version.{IsVersion, parts_in};

    ghost Value = { List ℕ };

    ghost view = { λ a. a.text.now };

    ghost invariant = { λ a. IsVersion a.text.now
        × (a.major ≡ (parts_in a.text.now).0)
        × (a.minor ≡ (parts_in a.text.now).1)
        × (a.patch ≡ (parts_in a.text.now).2) };
}

impl ModVersion {
    /// This version with its text elsewhere: in a text that is equal to its own. Allocates no memory.
    pub fn in_text<'a>(&self, text: &'a str) -> BorrowedVersion<'a>
        requires { text.now ≡ self.now }
        ensures { result ≡ self.now }
    {
        // The clauses of as_str tell the proof that the text is a version.
        let _text = self.as_str();
        BorrowedVersion {
            text,
            major: self.major(),
            minor: self.minor(),
            patch: self.patch(),
        }
    }

    /// This version with its text borrowed. Allocates no memory.
    pub fn borrowed(&self) -> BorrowedVersion<'_>
        ensures { result ≡ self.now }
    {
        self.in_text(self.as_str())
    }
}

impl<'a> BorrowedVersion<'a> {
    /// The text of the version.
    pub fn as_str(&self) -> &'a str
        ensures text { result.now ≡ self.now }
        ensures version { IsVersion self.now }
    {
        self.text
    }

    /// The pre-release.
    fn pre(&self) -> &'a str
        ensures { result.now ≡ (parts_in self.now).3 }
    {
        pre_release_in(self.text)
    }

    /// Whether the version is a release: whether it has no pre-release (SemVer 2.0.0, section 9). Builds don't
    /// count. Allocates no memory.
    pub fn is_release(&self) -> bool
        ensures { IsTrue result ↔ ((parts_in self.now).3 ≡ []) }
    {
        self.pre().is_empty()
    }

    /// The order by SemVer's precedence alone (SemVer 2.0.0, section 11), in which builds don't count.
    /// Allocates no memory.
    pub fn precedence(&self, other: &BorrowedVersion<'_>) -> Ordering
        ensures { result ≡ precedence (parts_in self.now) (parts_in other.now) }
    {
        let by_numbers = self
            .major
            .cmp(&other.major)
            .then(self.minor.cmp(&other.minor))
            .then(self.patch.cmp(&other.patch));
        match by_numbers {
            Ordering::Equal => compare_pre_releases(self.pre(), other.pre()),
            _ => by_numbers,
        }
    }

    /// The version with a copy of its text. Fails only when memory runs out.
    pub fn to_version(&self, alloc: Global) -> Result<ModVersion, AllocError>
        ensures { IfOk result (λ version. version ≡ self.now) }
    {
        // The text is a version's, so this fails only when memory runs out.
        let Ok(version) = ModVersion::parse(alloc, self.text) else {
            return Err(AllocError);
        };
        Ok(version)
    }
}

impl<'a> PartialEq for BorrowedVersion<'a> {
    ghost eq = { pointwise nat_eq };

    ghost laws = { partial_equiv_from_equiv nat_list_eq_equiv };

    fn eq(&self, other: &BorrowedVersion<'a>) -> bool {
        self.text == other.text
    }
}

impl<'a> Eq for BorrowedVersion<'a> {
    ghost laws = { nat_list_eq_equiv };
}

impl<'a> PartialOrd for BorrowedVersion<'a> {
    ghost partial_cmp = { λ a b. Some (version_cmp a b) };

    ghost laws = { version_po };

    fn partial_cmp(&self, other: &BorrowedVersion<'a>) -> Option<Ordering> {
        Some(self.cmp(other))
    }
}

impl<'a> Ord for BorrowedVersion<'a> {
    ghost cmp = { version_cmp };

    ghost total = { version_total };

    ghost matches_partial_cmp = { λ a b. refl };

    ghost matches_eq = { version_ties };

    fn cmp(&self, other: &BorrowedVersion<'a>) -> Ordering {
        self.precedence(other)
            .then_with(|| self.text.cmp(other.text))
    }
}
