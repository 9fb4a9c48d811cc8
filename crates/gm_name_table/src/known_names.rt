//! Names that were read before, kept so that a duplicate is neither tested nor stored again.

ghost use Rattle.std.specs.Prelude.{◌≡◌, ◌≤◌, IfSome, Ok};
ghost use Rattle.gm_name.specs.Fingerprint.{fingerprint};
ghost use Rattle.gm_name_table.specs.Kept.{IsWithinRoom, KeepsAll, none_kept};
ghost use Rattle.gm_name_table.specs.KeptNames.{count_of};
ghost use Rattle.gm_version.specs.Readings.{VersionReading};
ghost use Rattle.gm_name.specs.Readings.{PathReading};
ghost use Rattle.gm_name_table.specs.Pairs.{PairReading, pair_fault_of_path, pair_fault_of_version};
ghost use Rattle.gm_name_table.specs.declared.known_names.PairFault.TheVariants as pair;

use crate::kept_names::KeptNames;
use crate::place::MOST_PLACES;
use gm_name::{ModPath, ModVer, ModVersion, PathFault, VersionFault, fingerprint, tag_of};
use std::alloc::{AllocError, Global};
use std::marker::Model;
use thiserror::Error;

/// Why `KnownNames::pair` returned no pair.
#[derive(Clone, Copy, Debug, PartialEq, Eq, Error)]
pub enum PairFault {
    /// Memory ran out.
    #[error("out of memory")]
    NoMemory,
    /// The first text isn't a module path.
    #[error("not a module path")]
    BadPath,
    /// The second text isn't a version.
    #[error("not a version")]
    BadVersion,
    /// The version doesn't fit the path.
    #[error("the version does not fit the path")]
    Misfit,
}

impl From<AllocError> for PairFault {
    ghost from_gives = { λ _ fault. fault ≡ pair.NoMemory };

    fn from(_error: AllocError) -> PairFault {
        PairFault::NoMemory
    }
}

impl From<PathFault> for PairFault {
    ghost from_gives = { λ path fault. fault ≡ pair_fault_of_path path };

    fn from(fault: PathFault) -> PairFault {
        match fault {
            PathFault::NoMemory => PairFault::NoMemory,
            PathFault::BadPath => PairFault::BadPath,
        }
    }
}

impl From<VersionFault> for PairFault {
    ghost from_gives = { λ version fault. fault ≡ pair_fault_of_version version };

    fn from(fault: VersionFault) -> PairFault {
        match fault {
            VersionFault::NoMemory => PairFault::NoMemory,
            VersionFault::BadVersion | VersionFault::NotCanonical => PairFault::BadVersion,
        }
    }
}

/// Paths and versions that were read before, for callers that read many names, most of them duplicates: a name that is
/// read again shares the memory of the first one and isn't tested again.
///
/// Reading through a `KnownNames` gives the same results as `ModPath::parse` and `ModVersion::parse`. Of the names
/// whose fingerprints have one tag only the last is kept, so a lookup takes a few comparisons of numbers, at most log n
/// among n names, and one of texts, whatever the names are. Contracts see how many names of each kind are kept: no
/// fewer than before, and never more than there is room for. If there is no room, no text is hashed to be looked up.
/// All memory comes from the allocator that it was made with.
#[derive(Drop)]
pub struct KnownNames {
    /// The allocator of the names, and of the maps that keep them.
    alloc: Global,
    /// How many names each of the two maps may grow to.
    room: usize,
    /// The paths that are kept.
    paths: KeptNames<ModPath>,
    /// The versions that are kept.
    versions: KeptNames<ModVersion>,
    /// The path that is expected to be read next, if any. It is compared before anything is looked up.
    expected: Option<ModPath>,
}

impl Model for KnownNames {
    ghost use Rattle.std.specs.Prelude.{◌≡◌, ◌≤◌};
    ghost use Rattle.gm_name_table.specs.Kept.{KeptCounts};
    ghost use Rattle.gm_name_table.specs.KeptNames.{count_of};

    ghost Value = { KeptCounts };

    ghost view = { λ a. record {
      room = a.room;
      paths = count_of a.paths;
      versions = count_of a.versions;
    } };

    ghost invariant = { λ a. (count_of a.paths ≤ a.room) × (count_of a.versions ≤ a.room) };
}

/// Keeps a name by its fingerprint, instead of any other with the same tag, as long as there are fewer than `room`
/// names.
fn keep<T: Drop>(
    names: &mut KeptNames<T>,
    room: usize,
    number: u64,
    name: T,
) -> Result<(), AllocError>
    ensures within { count_of names.old ≤ room → count_of names.new ≤ room }
    ensures kept { count_of names.old ≤ count_of names.new }
{
    if names.count() < room && names.count() < MOST_PLACES as usize {
        names.keep(tag_of(number), name)?;
    }
    Ok(())
}

impl KnownNames {
    /// No names, with room for `room` paths and as many versions. No more than these are ever kept. Allocates no memory
    /// until a name is kept.
    pub fn new(alloc: Global, room: usize) -> KnownNames
        ensures { result ≡ none_kept room }
    {
        KnownNames {
            alloc,
            room,
            paths: KeptNames::new(alloc),
            versions: KeptNames::new(alloc),
            expected: None,
        }
    }

    /// Expects a path to be read next, such as that of the module whose file is read: if its text is read, it is shared
    /// and neither looked up nor tested. It takes the place of the one that was expected before. Allocates no memory;
    /// it fails only if the path already has as many copies as a `usize` can count.
    pub fn expect(&mut self, path: &ModPath) -> Result<(), AllocError>
        ensures kept { KeepsAll self.old self.new }
        ensures within { IsWithinRoom self.new }
    {
        self.expected = Some(path.copy(self.alloc)?);
        Ok(())
    }

    /// A copy of the expected path, if it has this text.
    fn expected_path(&self, text: &str) -> Option<ModPath>
        ensures within { IsWithinRoom self.now }
        ensures read { IfSome result (λ path. PathReading text.now (Ok path)) }
    {
        let expected = self.expected.as_ref()?;
        if expected.as_str() == text {
            expected.copy(self.alloc).ok()
        } else {
            None
        }
    }

    /// The number that a text is kept under: its fingerprint, or `None` if there is no room to keep anything.
    /// Without a number nothing is looked up.
    fn number_of(&self, text: &str) -> Option<u64>
        ensures { IfSome result (λ number. number ≡ fingerprint 0 text.now) }
    {
        if self.room == 0 {
            None
        } else {
            Some(fingerprint(0, text))
        }
    }

    /// A copy of the path with this text, if it was kept under this number. Two texts may have the same number, so
    /// the texts are compared too.
    fn known_path(&self, number: Option<u64>, text: &str) -> Option<ModPath>
        ensures within { IsWithinRoom self.now }
        ensures read { IfSome result (λ path. PathReading text.now (Ok path)) }
    {
        let held = self.paths.get(tag_of(number?))?;
        if held.as_str() == text {
            held.copy(self.alloc).ok()
        } else {
            None
        }
    }

    /// A copy of the version with this text, if it was kept under this number. The texts are compared too.
    fn known_version(&self, number: Option<u64>, text: &str) -> Option<ModVersion>
        ensures within { IsWithinRoom self.now }
        ensures read { IfSome result (λ version. VersionReading text.now (Ok version)) }
    {
        let held = self.versions.get(tag_of(number?))?;
        if held.as_str() == text {
            held.copy(self.alloc).ok()
        } else {
            None
        }
    }

    /// Keeps a path under a number, so that later reads of its text find it.
    fn keep_path(&mut self, number: u64, path: &ModPath) -> Result<(), AllocError>
        ensures kept { KeepsAll self.old self.new }
        ensures within { IsWithinRoom self.new }
    {
        keep(&mut self.paths, self.room, number, path.copy(self.alloc)?)
    }

    /// Keeps a version under a number, so that later reads of its text find it.
    fn keep_version(&mut self, number: u64, version: &ModVersion) -> Result<(), AllocError>
        ensures kept { KeepsAll self.old self.new }
        ensures within { IsWithinRoom self.new }
    {
        keep(
            &mut self.versions,
            self.room,
            number,
            version.copy(self.alloc)?,
        )
    }

    /// The pair of the path in one text and the version in another, as `path` and `version` read them and
    /// `ModVer::pair` combines them.
    ///
    /// `BadPath` exactly when the first text isn't a module path. Otherwise `BadVersion` if the second isn't a
    /// version, and `Misfit` if both are names but the version doesn't fit the path. If the first text is a
    /// path, `NoMemory` may come instead of any other result. A refused call may have kept names.
    pub fn pair(&mut self, path: &str, version: &str) -> Result<ModVer, PairFault>
        ensures kept { KeepsAll self.old self.new }
        ensures within { IsWithinRoom self.new }
        ensures read { PairReading path.now version.now result }
    {
        let path = self.kept_path(path)?;
        let version = self.version(version)?;
        let Some(pair) = ModVer::pair(path, version) else {
            return Err(PairFault::Misfit);
        };
        Ok(pair)
    }

    /// Keeps a path that was read elsewhere, so that reading its text again shares its memory and doesn't test it.
    /// Fails only when memory runs out.
    pub fn learn(&mut self, path: &ModPath) -> Result<(), AllocError>
        ensures kept { KeepsAll self.old self.new }
        ensures within { IsWithinRoom self.new }
    {
        self.keep_path(path.fingerprint(), path)
    }

    /// The module path in a text, as `ModPath::parse` reads it.
    ///
    /// `BadPath` exactly when the text isn't a module path; `NoMemory` only if it is one.
    pub fn path(&mut self, text: &str) -> Result<ModPath, PathFault>
        ensures kept { KeepsAll self.old self.new }
        ensures within { IsWithinRoom self.new }
        ensures read { PathReading text.now result }
    {
        if let Some(path) = self.expected_path(text) {
            return Ok(path);
        }
        self.kept_path(text)
    }

    /// The module path in a text, which is looked up among those that are kept, and kept if it isn't there.
    fn kept_path(&mut self, text: &str) -> Result<ModPath, PathFault>
        ensures kept { KeepsAll self.old self.new }
        ensures within { IsWithinRoom self.new }
        ensures read { PathReading text.now result }
    {
        let number = self.number_of(text);
        if let Some(path) = self.known_path(number, text) {
            return Ok(path);
        }
        let path = ModPath::read(self.alloc, number, text)?;
        if let Some(number) = number {
            self.keep_path(number, &path)?;
        }
        Ok(path)
    }

    /// The version in a text, as `ModVersion::parse` reads it.
    ///
    /// `NotCanonical` and `BadVersion` come in the same cases as there. `NoMemory` comes only on `v` and a
    /// SemVer version, with any build.
    pub fn version(&mut self, text: &str) -> Result<ModVersion, VersionFault>
        ensures kept { KeepsAll self.old self.new }
        ensures within { IsWithinRoom self.new }
        ensures read { VersionReading text.now result }
    {
        let number = self.number_of(text);
        if let Some(version) = self.known_version(number, text) {
            return Ok(version);
        }
        let version = ModVersion::parse(self.alloc, text)?;
        if let Some(number) = number {
            self.keep_version(number, &version)?;
        }
        Ok(version)
    }
}
