//! The latest of a module's versions. Its `go.mod` file states which of them are retracted.
//!
//! Pre-releases are unstable (SemVer 2.0.0, section 9), so they are considered only if there is no release.

ghost use Rattle.std.specs.Prelude.{◌≡◌, ◌&&◌, [], MatchOption, option_map};
ghost use Rattle.gm_store.specs.Latest.{IsLatest, counts};
ghost use Rattle.gm_store.specs.Private.Versions.{IsGreatestOrNone, is_greater};

use gm_name::BorrowedVersion;

/// Whether a version is considered: any version, or a release if `releases_only` is set.
fn counts(releases_only: bool, version: &BorrowedVersion<'_>) -> bool
    ensures { result ≡ counts releases_only version.now }
{
    !releases_only || version.is_release()
}

/// Whether a version is greater than the greatest one so far. It is if there is none so far.
fn is_greater<'a>(version: &BorrowedVersion<'a>, best: Option<&BorrowedVersion<'a>>) -> bool
    ensures { result ≡ is_greater version.now (option_map (λ best. best.now) best.entry) }
{
    match best {
        Some(best) => *version > *best,
        None => true,
    }
}

/// Whether a version is considered, and is greater than the greatest one so far.
fn is_better<'a>(
    releases_only: bool,
    version: &BorrowedVersion<'a>,
    best: Option<&BorrowedVersion<'a>>,
) -> bool
    ensures { result ≡ (counts releases_only version.now
        && is_greater version.now (option_map (λ best. best.now) best.entry)) }
{
    counts(releases_only, version) && is_greater(version, best)
}

/// The greatest of the versions that are considered, or `None` if there is none of them.
fn greatest<'a>(
    versions: &'a [BorrowedVersion<'a>],
    releases_only: bool,
) -> Option<&'a BorrowedVersion<'a>>
    ensures { IsGreatestOrNone releases_only versions.now (option_map (λ best. best.now) result) }
{
    let mut best: Option<&BorrowedVersion<'a>> = None;
    for version in versions {
        if is_better(releases_only, version, best) {
            best = Some(version);
        }
    }
    best
}

/// The latest of some versions: the greatest release, or the greatest version if all are pre-releases.
///
/// Versions are compared by SemVer's order. Build metadata, which SemVer leaves unordered, is compared by its
/// bytes. The result is `None` if and only if `versions` is empty. It borrows from the slice; time is linear, and
/// no memory is allocated.
///
/// For example, the latest of `v1.0.0`, `v1.2.0` and `v2.0.0-rc.1` is `v1.2.0`.
pub fn latest<'a>(versions: &'a [BorrowedVersion<'a>]) -> Option<&'a BorrowedVersion<'a>>
    ensures { MatchOption result (versions.now ≡ []) (λ version. IsLatest versions.now version.now) }
{
    match greatest(versions, true) {
        Some(version) => Some(version),
        None => greatest(versions, false),
    }
}
