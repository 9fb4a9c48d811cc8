//! The index of the replacements, for lookups in logarithmic time. Two maps, by version and by whole path, let the
//! lookups work without building keys, so that they allocate nothing.

ghost use Rattle.std.specs.Prelude.{◌≡◌, ◌++◌, ◌∷◌, [], IfErr, IfOk, OnOk, true};
ghost use Rattle.std.specs.Option.{option_map};
ghost use Rattle.gm_name.specs.Names.{does_fit};
ghost use Rattle.gm_file.specs.Faults.{does_left_fit};
ghost use Rattle.gm_file.specs.Fields.{replacement_of};
ghost use Rattle.gm_file.specs.Indexes.{AreIndexed, IndexLines};
ghost use Rattle.gm_file.specs.Private.Indexes.{IsInserted, IsNoted, ReportsConflict};
ghost use Rattle.gm_file.specs.Views.{replace_view, replace_views, right_view};

use crate::fault::{DirectiveKind, LineFault};
use crate::replace::{Replace, Right};
use gm_name::{ModPath, ModVer, ModVersion};
use std::alloc::{AllocError, Global};
use std::collections::BTreeMap;

/// The `replace` lines, in order, and maps from what they replace to their right sides.
#[derive(Drop)]
pub(crate) struct Replacements {
    /// The lines, in order and with duplicates.
    lines: Vec<Replace>,
    /// The right side of each replaced version.
    by_version: BTreeMap<ModVer, Right>,
    /// The right side of each path that is replaced as a whole.
    by_path: BTreeMap<ModPath, Right>,
}

/// Inserts a copy of a right side at a key. The only refusal is `NoMemory`.
fn insert_copy<K: Ord + Drop>(
    alloc: Global,
    index: &mut BTreeMap<K, Right>,
    key: K,
    right: &Right,
) -> Result<(), LineFault>
    ensures inserted { OnOk result (IsInserted K.cmp index.old index.new key (right_view right.now)) }
    ensures memory { IfErr result (λ fault. fault ≡ LineFault.NoMemory) }
{
    index.insert(key, right.copy(alloc)?)?;
    Ok(())
}

/// Inserts a copy of a right side at a key, unless the key has an equal one. A key with a different one is refused with
/// `ConflictingReplace`.
fn note<K: Ord + Drop>(
    alloc: Global,
    index: &mut BTreeMap<K, Right>,
    key: K,
    right: &Right,
) -> Result<(), LineFault>
    ensures { IsNoted K.cmp index.old index.new key (right_view right.now) result }
{
    if let Some(earlier) = index.get(&key) {
        if right.is_same(earlier) {
            return Ok(());
        }
        return Err(LineFault::Kind(DirectiveKind::ConflictingReplace));
    }
    insert_copy(alloc, index, key, right)
}

/// A copy of a path and of a version that fits it, as a key.
fn copied_pair(alloc: Global, path: &ModPath, version: &ModVersion) -> Result<ModVer, AllocError>
    requires { does_fit path.now version.now ≡ true }
    ensures { IfOk result (λ key. key ≡ (path.now, version.now)) }
{
    let path = path.copy(alloc)?;
    match ModVer::pair(path, version.copy(alloc)?) {
        Some(key) => Ok(key),
        None => unreachable!(),
    }
}

impl Replacements {
    /// The index of no lines.
    pub(crate) fn new(alloc: Global) -> Replacements
        ensures lines { result.lines.items ≡ [] }
        ensures indexed { AreIndexed result }
    {
        Replacements {
            lines: Vec::new(alloc),
            by_version: BTreeMap::new(alloc),
            by_path: BTreeMap::new(alloc),
        }
    }

    /// Notes the right side of the next line at what the line replaces. Refuses what `add` refuses.
    fn note_line(&mut self, alloc: Global, replace: &Replace) -> Result<(), LineFault>
        requires indexed { AreIndexed self.old }
        requires fits { does_left_fit replace.now.left replace.now.version ≡ true }
        ensures lines { self.new.lines.items ≡ self.old.lines.items }
        ensures indexed { OnOk result (IndexLines (replace_views self.old.lines.items ++ replace_view replace.now ∷ [])
            self.new.by_version self.new.by_path) }
        ensures conflict { ReportsConflict (replace_view replace.now) (replace_views self.old.lines.items) result }
    {
        match &replace.version {
            Some(version) => {
                let key = copied_pair(alloc, &replace.left, version)?;
                note(alloc, &mut self.by_version, key, &replace.right)
            }
            None => {
                let key = replace.left.copy(alloc)?;
                note(alloc, &mut self.by_path, key, &replace.right)
            }
        }
    }

    /// Adds the next line. It is refused with `ConflictingReplace` if an earlier line has the same left side and a
    /// different right side, and with `NoMemory` if memory runs out.
    pub(crate) fn add(&mut self, alloc: Global, replace: Replace) -> Result<(), LineFault>
        requires indexed { AreIndexed self.old }
        requires fits { does_left_fit replace.left replace.version ≡ true }
        ensures lines { OnOk result (replace_views self.new.lines.items
            ≡ replace_views self.old.lines.items ++ replace_view replace ∷ []) }
        ensures indexed { OnOk result (AreIndexed self.new) }
        ensures conflict { ReportsConflict (replace_view replace) (replace_views self.old.lines.items) result }
    {
        self.note_line(alloc, &replace)?;
        self.lines.push(replace)?;
        Ok(())
    }

    /// The lines, in order and with duplicates.
    pub(crate) fn as_slice(&self) -> &[Replace]
        ensures { result.now ≡ self.now.lines.items }
    {
        self.lines.as_slice()
    }

    /// The right side for this version, otherwise the one for its whole path. Takes logarithmic time.
    pub(crate) fn replacement(&self, pair: &ModVer) -> Option<&Right>
        requires { AreIndexed self.now }
        ensures { option_map (λ right. right_view right.now) result
            ≡ replacement_of (replace_views self.now.lines.items) pair.now }
    {
        match self.by_version.get(pair) {
            Some(right) => Some(right),
            None => self.by_path.get(pair.path()),
        }
    }
}
