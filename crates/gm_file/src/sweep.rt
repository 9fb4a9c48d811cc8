//! A sweep over intervals that are sorted by their low ends. For a version it suffices to know the highest high end
//! of the intervals that begin at it or before: some interval contains the version exactly if that end is not below
//! it.

ghost use Rattle.std.specs.Prelude.{◌≡◌, ◌||◌, ℕ, List, IfOk, option_map, map};
ghost use Rattle.gm_file.specs.Views.{interval_views};
ghost use Rattle.gm_file.specs.Shown.{is_at_most};
ghost use Rattle.gm_file.specs.Private.Swept.{AreAllSwept, AreSorted, AreSwept, is_reached, ends_view};

use crate::replace::Interval;
use gm_name::{BorrowedVersion, ModVersion, NoMemory};
use std::alloc::Global;
use std::cmp::Ordering;

/// The ends of an interval. They are ordered by the low end first, which the field order decides.
#[derive(Clone, Copy, PartialEq, Eq, PartialOrd, Ord)]
pub(crate) struct Ends<'a> {
    /// The low end.
    pub(crate) low: &'a ModVersion,
    /// The high end.
    pub(crate) high: &'a ModVersion,
}

/// The state of a sweep: the intervals that begin at the current version or before.
#[derive(Clone, Copy)]
pub(crate) struct Sweep<'a> {
    /// How many they are, which is the index of the next interval.
    pub(crate) next: usize,
    /// The highest of their high ends, or `None` if there are none.
    pub(crate) reach: Option<&'a ModVersion>,
}

/// Whether a version has lower precedence than another, or the same (SemVer 2.0.0, section 11).
fn is_at_most(one: &BorrowedVersion<'_>, other: &BorrowedVersion<'_>) -> bool
    ensures { result ≡ is_at_most one.now other.now }
{
    one.precedence(other) != Ordering::Greater
}

/// Whether a version is at most the highest end so far. False if there is no end.
pub(crate) fn is_reached(version: &BorrowedVersion<'_>, reach: Option<&ModVersion>) -> bool
    ensures { result ≡ is_reached version.now (option_map (λ reach. reach.now) reach.entry) }
{
    match reach {
        Some(reach) => is_at_most(version, &reach.borrowed()),
        None => false,
    }
}

/// The higher of two ends. The first may be missing.
fn higher_end<'a>(reach: Option<&'a ModVersion>, high: &'a ModVersion) -> &'a ModVersion
    ensures { (version : List ℕ) → is_at_most version result.now
        ≡ (is_reached version (option_map (λ reach. reach.now) reach.entry) || is_at_most version high.entry.now) }
{
    match reach {
        Some(reach) => {
            if is_at_most(&high.borrowed(), &reach.borrowed()) {
                reach
            } else {
                high
            }
        }
        None => high,
    }
}

/// The ends of the intervals, sorted by the low ends. The only refusal is `NoMemory`.
pub(crate) fn sorted_ends<'a>(
    alloc: Global,
    intervals: &'a [Interval],
) -> Result<Vec<Ends<'a>>, NoMemory>
    ensures { IfOk result (λ ends. AreSorted (map ends_view ends.items) (interval_views intervals.entry.now)) }
{
    let mut ends = Vec::new(alloc);
    for interval in intervals {
        let Interval { low, high } = interval;
        ends.push(Ends { low, high })?;
    }
    ends.sort_unstable();
    Ok(ends)
}

/// Continues a sweep past each interval that begins at this version or before. The version must not precede the one
/// that the sweep has reached.
pub(crate) fn advance<'a>(
    ends: &[Ends<'a>],
    from: Sweep<'a>,
    version: &BorrowedVersion<'_>,
) -> Sweep<'a>
    requires { AreSwept (map ends_view ends.now) version.now from.next (option_map (λ reach. reach.now) from.reach) }
    ensures { AreAllSwept (map ends_view ends.now) version.now result.next
        (option_map (λ reach. reach.now) result.reach) }
{
    let mut next = from.next;
    let mut reach = from.reach;
    'ends: while next < ends.len() {
        let interval = ends[next];
        if !is_at_most(&interval.low.borrowed(), version) {
            break;
        }
        reach = Some(higher_end(reach, interval.high));
        next += 1;
    }
    Sweep { next, reach }
}
