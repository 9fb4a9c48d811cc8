//! The table of the hashes in a go.sum, sorted so that lookups are fast.

ghost use Rattle.std.specs.Prelude.{◌≡◌, ◌<◌, ◌≤◌, ◌↔◌, ℕ, IfOk, OnOk, length, map, slice_index_or, true, false};
ghost use Rattle.std.specs.Str.{bytes_eq};
ghost use Rattle.gm_store_sums.specs.Hash.{file_hash};
ghost use Rattle.gm_store_sums.specs.Order.{AreInOrder, triple};
ghost use Rattle.gm_store_sums.specs.Private.Lines.{IsEndOf, IsStartOf, key_cmp};
ghost use Rattle.gm_store_sums.specs.Sums.{HasValidLines, IsFirstInvalid, ReadsAs, check_in, is_line_for};
ghost use Rattle.gm_store_sums.specs.declared.sum_table.SumLine.{SumLine};
ghost use Rattle.gm_store_sums.specs.declared.sum_table.SumFault.TheVariants.{NoMemory as OutOfMemory};

use crate::hashing::hash_bytes;
use crate::sum_lines::{fault_of, sums_of};
use gm_name::{ModPath, ModVersion};
use std::alloc::{AllocError, Global};
use std::cmp::Ordering;
use std::marker::Model;
use thiserror::Error;

/// The greatest length of a go.sum, in bytes: 16 MiB. A caller that cuts off long files must keep at least one byte
/// more.
pub const MAX_BYTES: usize = 16_777_216;

/// Why `SumTable::read` returned no table.
#[derive(Clone, Copy, Debug, PartialEq, Eq, Error)]
pub enum SumFault {
    /// Memory ran out.
    #[error("out of memory")]
    NoMemory,
    /// The text has more than 16,777,216 bytes (`MAX_BYTES`).
    #[error("too many bytes")]
    TooMany,
    /// A line is neither blank nor three fields of UTF-8.
    #[error("line {line} does not have three UTF-8 fields")]
    BadSum {
        /// The number of the first such line, counted from 1.
        line: usize,
    },
}

impl From<AllocError> for SumFault {
    ghost from_gives = { λ _ fault. fault ≡ OutOfMemory };

    fn from(_error: AllocError) -> SumFault {
        SumFault::NoMemory
    }
}

/// What a table says about the hash of a file.
#[derive(Clone, Copy, Debug)]
pub enum Sum {
    /// The table lists this hash and no other.
    Good,
    /// The table lists no hash.
    Unlisted,
    /// The table lists another hash, perhaps in addition to this one.
    Differs,
}

/// A line of a table: the hash of the go.mod of a module at a version. Its fields are slices of the go.sum.
#[derive(Clone, Copy, PartialEq, Eq, PartialOrd, Ord)]
pub struct SumLine<'a> {
    /// The module's path.
    pub path: &'a [u8],
    /// The module's version, without `/go.mod`.
    pub version: &'a [u8],
    /// The hash, with its `h1:`.
    pub hash: &'a [u8],
}

/// The hashes of go.mod files that a go.sum lists. It borrows from the bytes of the go.sum. A clause sees it as the
/// list of its lines.
#[derive(Drop)]
pub struct SumTable<'a> {
    /// The lines in the order of their paths, versions and hashes.
    lines: Vec<SumLine<'a>>,
}

impl<'a> Model for SumTable<'a> {
    ghost use Rattle.std.specs.Prelude.{map};
    ghost use Rattle.gm_store_sums.specs.Order.{AreInOrder, triple};
    ghost use Rattle.gm_store_sums.specs.Sums.{Sums};

    ghost Value = { Sums };

    ghost view = { λ t. map triple t.lines.items };

    ghost invariant = { λ t. AreInOrder t.lines.items };
}

impl<'a> SumTable<'a> {
    /// The table of a go.sum (Go Modules Reference, go.sum files). Blank lines are skipped, and so are the
    /// hashes of whole modules and those that don't begin with `h1:`.
    ///
    /// `TooMany` exactly when the text has more than `MAX_BYTES` bytes, whatever its lines. Otherwise `BadSum` with
    /// the number of the first line that is neither blank nor three fields of UTF-8. `NoMemory` only if the
    /// text has neither fault.
    pub fn read(alloc: Global, text: &'a [u8]) -> Result<SumTable<'a>, SumFault>
        ensures ok { IfOk result (λ table. ReadsAs table text.now) }
        ensures good { OnOk result (HasValidLines text.now) }
        ensures too_many { (result ≡ Err SumFault.TooMany) ↔ (MAX_BYTES < length text.now) }
        ensures bad { (number : ℕ) → result ≡ Err (SumFault.BadSum number) → IsFirstInvalid text.now number }
        ensures no_memory { result ≡ Err SumFault.NoMemory → HasValidLines text.now }
    {
        if text.len() > MAX_BYTES {
            return Err(SumFault::TooMany);
        }
        let Ok(Some(mut lines)) = sums_of(alloc, text) else {
            return Err(fault_of(text));
        };
        lines.sort_unstable();
        Ok(SumTable { lines })
    }

    /// What the table says about this hash of the go.mod of a module at a version. Allocates no memory, and
    /// takes time logarithmic in the number of lines.
    pub fn check(&self, path: &ModPath, version: &ModVersion, hash: &str) -> Sum
        ensures { result ≡ check_in self.now path.now version.now hash.now }
    {
        find(&self.lines, path, version, hash.as_bytes())
    }

    /// What the table says about the go.mod of a module at a version if these are its bytes: what `check` says about
    /// their `mod_hash`. Allocates no memory.
    pub fn check_content(&self, path: &ModPath, version: &ModVersion, content: &[u8]) -> Sum
        ensures { result ≡ check_in self.now path.now version.now (file_hash content.now) }
    {
        find(&self.lines, path, version, hash_bytes(content).as_slice())
    }
}

/// What the lines of a table say about this hash of the go.mod of a module at a version.
fn find(lines: &[SumLine<'_>], path: &ModPath, version: &ModVersion, hash: &[u8]) -> Sum
    requires { AreInOrder lines.now }
    ensures { result ≡ check_in (map triple lines.now) path.now version.now hash.now }
{
    // The lines for a path and version are adjacent and in the order of their hashes, so if the first and the last
    // have this hash, all of them do.
    let start = lines_before(lines, path, version);
    let end = lines_up_to(lines, path, version, start);
    if start >= end {
        return Sum::Unlisted;
    }
    if has_hash(&lines[start], hash) && has_hash(&lines[end - 1], hash) {
        Sum::Good
    } else {
        Sum::Differs
    }
}

/// How many lines are before those for this path and version.
fn lines_before(lines: &[SumLine<'_>], path: &ModPath, version: &ModVersion) -> usize
    requires { AreInOrder lines.now }
    ensures within { result ≤ length lines.now }
    ensures point { IsStartOf lines.now (path.now, version.now) result }
{
    lines.partition_point(|line| compare_key(line, path, version).is_lt())
}

/// How many lines are before those for this path and version or among them, if `start` lines are before them.
fn lines_up_to(lines: &[SumLine<'_>], path: &ModPath, version: &ModVersion, start: usize) -> usize
    requires order { AreInOrder lines.now }
    requires within { start ≤ length lines.now }
    requires point { IsStartOf lines.now (path.now, version.now) start }
    ensures within { result ≤ length lines.now }
    ensures point { IsEndOf lines.now (path.now, version.now) result }
{
    // Most files have one line or none, so two lines are looked at before all of them are searched.
    if !is_for(lines, start, path, version) {
        return start;
    }
    if !is_for(lines, start + 1, path, version) {
        return start + 1;
    }
    lines.partition_point(|line| compare_key(line, path, version).is_le())
}

/// Whether the line in this place is for this path and version.
fn is_for(lines: &[SumLine<'_>], place: usize, path: &ModPath, version: &ModVersion) -> bool
    ensures within { result ≡ true → place < length lines.now }
    ensures same { (line : SumLine) → place < length lines.now → result
        ≡ is_line_for path.now version.now (triple (slice_index_or lines.now place line)) }
{
    match lines.get(place) {
        // Lines of one path stand together, so it is the version that tells them apart.
        Some(line) => {
            line.version == version.as_str().as_bytes() && line.path == path.as_str().as_bytes()
        }
        None => false,
    }
}

/// Compares the path and version of a line with these.
fn compare_key(line: &SumLine<'_>, path: &ModPath, version: &ModVersion) -> Ordering
    ensures { result ≡ key_cmp (triple line.now) (path.now, version.now) }
{
    let listed = line.version;
    let by_path = line.path.cmp(path.as_str().as_bytes());
    by_path.then_with(|| listed.cmp(version.as_str().as_bytes()))
}

/// Whether a line has this hash.
fn has_hash(line: &SumLine<'_>, hash: &[u8]) -> bool
    ensures { result ≡ bytes_eq line.now.hash.now hash.now }
{
    line.hash == hash
}
