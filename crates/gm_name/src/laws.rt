//! What the definitions of names mean: laws that the crates above may rely on.
//!
//! A function here does nothing. Its contract is the law, which the prover checks; `specs/Laws.antt` states the
//! longer ones.

ghost use Rattle.std.specs.Prelude.{◌≡◌, ◌↔◌, ℕ, List, true};
ghost use Rattle.std.specs.Cmp.Lexicographic.{slice_cmp};
ghost use Rattle.std.specs.Ordering.{nat_cmp, ordering_then};
ghost use Rattle.gm_name.specs.Laws.{BaseForms, BaseIsLower, BaseIsSpelled, BaseIsVersion, BytesOfPath, BytesOfVersion, EscapedIsLowerCase, EscapedTextsAreTested, FitsAreTested, HigherPrecedence, LowerPrecedence, NumericIdentifiersByNumber, OneBase, OneMajor, OnePseudo, OneVersionForPrecedence, PathHasNoBang, PathsAreTested, PathEscapingIsInjective, PseudoIsSpelled, SamePrecedence, UnescapeInvertsEscape, VersionHasNoBang, VersionIsSpelled, VersionsAreTested, VersionEscapingIsInjective};
ghost use Rattle.gm_version.specs.Version.{parts_in, precedence, version_cmp};

use crate::fit::ModVer;
use crate::path::ModPath;
use gm_version::ModVersion;

// ---- what a name means

/// A path names only one major version.
pub fn one_major()
    ensures { OneMajor }
{}

/// A version is the text of its parts, and of no other parts.
pub fn version_is_spelled()
    ensures { VersionIsSpelled }
{}

/// A path has only ASCII letters, digits, `-`, `.`, `_`, `~` and `/`; a version has only ASCII letters, digits,
/// `+`, `-` and `.`.
pub fn bytes_of_names()
    ensures path { BytesOfPath }
    ensures version { BytesOfVersion }
{}

// ---- tests of names: `is_path`, `is_version` and `does_fit` compute the facts `IsPath`, `IsVersion` and `Fits`

/// A text passes the test of a path exactly when it is a module path.
pub fn paths_are_tested()
    ensures { PathsAreTested }
{}

/// A text passes the test of a version exactly when it is a version.
pub fn versions_are_tested()
    ensures { VersionsAreTested }
{}

/// A version passes the test for a path exactly when it fits the path.
pub fn fits_are_tested()
    ensures { FitsAreTested }
{}

// ---- orders

/// Module paths are ordered by their bytes, and are equal exactly when their texts are.
pub fn path_order()
    ensures order { (a b : List ℕ) → ⟦<ModPath as Ord>⟧.cmp a b ≡ slice_cmp nat_cmp a b }
    ensures equal { (a b : List ℕ) → (⟦<ModPath as PartialEq>⟧.eq a b ≡ true) ↔ (a ≡ b) }
{}

/// Versions are ordered by precedence, then by their bytes, and are equal exactly when their texts are.
pub fn version_order()
    ensures order { (v w : List ℕ) → ⟦<ModVersion as Ord>⟧.cmp v w
        ≡ ordering_then (precedence (parts_in v) (parts_in w)) (slice_cmp nat_cmp v w) }
    ensures equal { (v w : List ℕ) → (⟦<ModVersion as PartialEq>⟧.eq v w ≡ true) ↔ (v ≡ w) }
{}

/// Pairs are ordered by path, then by version, and are equal exactly when both are.
pub fn pair_order()
    ensures order { (a b : List ℕ × List ℕ) → ⟦<ModVer as Ord>⟧.cmp a b
        ≡ ordering_then (slice_cmp nat_cmp a.0 b.0) (version_cmp a.1 b.1) }
    ensures equal { (a b : List ℕ × List ℕ) → (⟦<ModVer as PartialEq>⟧.eq a b ≡ true) ↔ (a ≡ b) }
{}

/// Precedence is that of SemVer 2.0.0, section 11; `specs/Precedence.antt` states its rules in the order of the
/// standard.
pub fn precedence_is_of_semver()
    ensures lower { LowerPrecedence }
    ensures same { SamePrecedence }
    ensures higher { HigherPrecedence }
{}

/// Numeric identifiers of pre-releases are ordered as numbers (SemVer 2.0.0, 11.4.1).
pub fn numeric_identifiers_by_number()
    ensures { NumericIdentifiersByNumber }
{}

/// Two versions that fit one path and have equal precedence are equal, so "the greatest version of a path" is unique.
pub fn one_version_for_precedence()
    ensures { OneVersionForPrecedence }
{}

// ---- pseudo-versions

/// A version is a pseudo-version in at most one way: of one form, with one time and one revision.
pub fn one_pseudo()
    ensures { OnePseudo }
{}

/// A pseudo-version of the second or third form has one base, which is a version of lower precedence; no other
/// version has a base.
pub fn one_base()
    ensures one { OneBase }
    ensures version { BaseIsVersion }
    ensures lower { BaseIsLower }
    ensures forms { BaseForms }
{}

/// A text is a version and a pseudo-version exactly when it is `vX.0.0-TIME-REVISION`,
/// `vX.Y.Z-BEFORE.0.TIME-REVISION` or `vX.Y.(Z+1)-0.TIME-REVISION`, each with or without `+incompatible` at its
/// end; the base of the second is `vX.Y.Z-BEFORE`, and that of the third `vX.Y.Z`, each with the same build.
pub fn pseudo_is_spelled()
    ensures pseudo { PseudoIsSpelled }
    ensures base { BaseIsSpelled }
{}

// ---- escaping

/// A text without `!` is what its escaped form unescapes to, and no other text is.
pub fn unescape_inverts_escape()
    ensures { UnescapeInvertsEscape }
{}

/// The names that unescape are those made of pieces: `!` and a lower-case letter, or a byte other than `!` and
/// the upper-case letters.
pub fn escaped_texts_are_tested()
    ensures { EscapedTextsAreTested }
{}

/// An escaped text has no upper-case letter, so that escaped texts differ even if case is ignored.
pub fn escaped_is_lower_case()
    ensures { EscapedIsLowerCase }
{}

/// No path and no version contains `!`, so different paths, and different versions, have different escaped texts.
pub fn escaping_is_injective()
    ensures path { PathHasNoBang }
    ensures version { VersionHasNoBang }
    ensures paths { PathEscapingIsInjective }
    ensures versions { VersionEscapingIsInjective }
{}
