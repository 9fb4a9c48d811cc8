//! The versions that no interval contains (Go Modules Reference, retract directive).
//!
//! For example, of v1.0.0, v1.1.0, v1.2.0 and v1.3.0 the intervals [v1.1.0, v1.2.0] and [v1.2.0, v1.2.0] leave v1.0.0
//! and v1.3.0. The intervals are sorted once and then swept together with the versions, so that the time doesn't grow
//! with the product of both.

ghost use Rattle.std.specs.Prelude.{◌≡◌, IfOk, map};
ghost use Rattle.std.specs.List.Sorted.{IsStrictlySortedBy};
ghost use Rattle.gm_version.specs.Version.{version_cmp};
ghost use Rattle.gm_file.specs.Views.{interval_views};
ghost use Rattle.gm_file.specs.Shown.{shown_of};

use crate::replace::Interval;
use crate::sweep::{Sweep, advance, is_reached, sorted_ends};
use gm_name::{BorrowedVersion, NoMemory};
use std::alloc::Global;

/// The versions that no interval contains, in their order (Go Modules Reference, retract directive).
///
/// An interval contains a version if its low end, the version and its high end ascend by SemVer's precedence, equality
/// included. An interval whose high end precedes its low end contains no version.
///
/// `versions` must ascend strictly, so without duplicates. The intervals may come in any order. They are sorted
/// once, and then each version and each interval is visited once. The only refusal is `NoMemory`, when memory runs
/// out.
pub fn shown_versions<'a, 'v>(
    alloc: Global,
    versions: &'a [BorrowedVersion<'v>],
    intervals: &[Interval],
) -> Result<Vec<&'a BorrowedVersion<'v>>, NoMemory>
    requires { IsStrictlySortedBy version_cmp versions.now }
    ensures { IfOk result (λ shown. map (λ version. version.now) shown.items
        ≡ shown_of (interval_views intervals.now) versions.entry.now) }
{
    let ends = sorted_ends(alloc, intervals)?;
    let mut sweep = Sweep {
        next: 0,
        reach: None,
    };
    let mut shown = Vec::new(alloc);
    for version in versions {
        sweep = advance(ends.as_slice(), sweep, version);
        if !is_reached(version, sweep.reach) {
            shown.push(version)?;
        }
    }
    Ok(shown)
}
