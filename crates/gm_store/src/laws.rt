//! Laws about file names and paths and about lookups in several folders. The functions do nothing; each contract is a
//! law.
//!
//! They show that the definitions in the contracts mean what a reader expects: different files have different
//! paths, and a lookup has exactly one outcome.

ghost use Rattle.std.specs.Prelude.{◌≡◌};
ghost use Rattle.gm_store_parts.specs.Asked.{name_of, same_name};
ghost use Rattle.gm_store_parts.specs.declared.files.FileName.{FileName};
ghost use Rattle.gm_store.specs.DiskAnswers.{DeviceFailsByAFile};
ghost use Rattle.gm_store.specs.Relative.{PathsAreLowercase, PathsDiffer};
ghost use Rattle.gm_store.specs.Stops.{OutcomeExists, OutcomeIsUnique, OutcomeFollowsContents};

use gm_store_parts::{FileName, FileSystem};

/// Two names of files are equal exactly if they are the same: the same kind of file, with equal texts.
pub fn names_are_equal_by_text()
    ensures { (a b : FileName) → ⟦<FileName as PartialEq>⟧.eq a b ≡ same_name (name_of a) (name_of b) }
{}

/// Different module files have different paths. The paths have no upper-case letter, so they differ on file
/// systems that ignore case as well.
pub fn paths_of_files()
    ensures differ { PathsDiffer }
    ensures small { PathsAreLowercase }
{}

/// A lookup in several folders stops at exactly one folder, as `step` decides. So it has one outcome, an answer or
/// a failure of the device, and one count of failures. It always stops, because a folder follows each mark.
pub fn lookups_have_one_outcome()
    ensures one { OutcomeIsUnique }
    ensures some { OutcomeExists }
{}

/// Over folders in memory, the outcome of a lookup follows from the contents of all folders under that name,
/// including the folders that are not reached.
pub fn memory_folders_answer_by_contents()
    ensures { OutcomeFollowsContents }
{}

/// The device of a store over folders of a file system fails at a name only if opening or reading the file at the
/// name's path in one of the folders fails. So if no file there can fail, the device doesn't.
pub fn devices_fail_by_a_file<S: FileSystem>(system: &S)
    ensures { DeviceFailsByAFile (S.may_open system.now) }
{}
