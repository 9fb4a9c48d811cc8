//! Copies of the definitions behind what `list` prints, tried on a few worlds.
//!
//! Change one in specs/ and check (docs/proof/HEADLINE.md, "Change a definition"). The world of
//! `pruned_is_listed` is followed there to the last byte that is printed.
#![tactic(auto)]

ghost use Rattle.page.specs.Worlds.{DeviceIsReported, FaultsAreReported, OneOutcome, PrunedIsListed, UnprunedIsListed};
ghost use Rattle.page.specs.Worlds.Parts.{OthersDoNotHold, PartsAreShown};
ghost use Rattle.page.specs.Worlds.Table.{
  ExcludesAreTold,
  GoVersionsAreTold,
  OrdersAreTold,
  ReplacesAreTold,
  TextsAreTold,
};
ghost use Rattle.page.specs.Worlds.Rows.{
  DeepIsOpened,
  EachPartCounts,
  EmptyMainIsReported,
  ExcludedIsLeftOut,
  FolderDeviceIsReported,
  FolderIsListed,
  FoldersAreListed,
  ForkIsListed,
  ForkIsReported,
  GreaterVersionIsListed,
  HostsAreReported,
  LaterGoIsListed,
  MainAloneIsListed,
  MalformedIsReported,
  OneFileIsReported,
  OthersHaveNone,
  OwnPathIsLeftOut,
  SumsAreReported,
  TooManyAreReported,
  TopIsOpenedDeeply,
  TwoFaultsAreReported,
  UnfetchableIsReported,
  UnopenedIsListed,
};

/// A run has no second outcome, so what a world prints or reports is all.
pub fn outcomes_are_one()
    ensures { OneOutcome }
{}

/// Below a main file of go 1.17: an unpruned and a pruned file, a folder, an excluded version, and v1.10.0 above
/// v1.9.0; all rows, the first two, and those after a path.
pub fn pruned_is_listed()
    ensures { PrunedIsListed }
{}

/// Below a main file of go 1.16 what a pruned file requires is opened too.
pub fn unpruned_is_listed()
    ensures { UnprunedIsListed }
{}

/// A path that no proxy has and a file that declares another path are reported, and nothing is printed.
pub fn faults_are_reported()
    ensures { FaultsAreReported }
{}

/// A failure of the device is reported with status 3.
pub fn device_is_reported()
    ensures { DeviceIsReported }
{}

/// Two modules require v1.9.0 and v1.10.0 of a third: numbers, not texts, order them.
pub fn greater_version_is_listed()
    ensures { GreaterVersionIsListed }
{}

/// A main file that requires nothing is listed alone, and nothing is asked.
pub fn main_alone_is_listed()
    ensures { MainAloneIsListed }
{}

/// A main file of no bytes is reported with line 0 and a kind, a directive with its line; nothing is asked.
pub fn empty_main_is_reported()
    ensures { EmptyMainIsReported }
{}

/// What a pruned file requires below a pruned main file is listed, and its file is not asked for.
pub fn unopened_is_listed()
    ensures { UnopenedIsListed }
{}

/// Below a pruned main file an unpruned file requires a pruned one: what that requires is opened and listed too.
pub fn deep_is_opened()
    ensures { DeepIsOpened }
{}

/// A pruned file stands at the top, and an unpruned one requires it: what it requires is opened too, and each file is
/// asked for once.
pub fn top_is_opened_deeply()
    ensures { TopIsOpenedDeeply }
{}

/// A module requires a version that the main file excludes: it has no row, and its file is not asked for.
pub fn excluded_is_left_out()
    ensures { ExcludedIsLeftOut }
{}

/// A folder replaces a module whose path no proxy has: the row shows the folder, whose file alone is asked for.
pub fn folder_is_listed()
    ensures { FolderIsListed }
{}

/// Without the folder the module is reported, and nothing is asked.
pub fn unfetchable_is_reported()
    ensures { UnfetchableIsReported }
{}

/// A fork replaces each version of a path, and is required itself: both have rows, and its file is asked for once.
pub fn fork_is_listed()
    ensures { ForkIsListed }
{}

/// The fork's file declares the path that it replaces: that is right for the replaced module, and wrong for the fork.
pub fn fork_is_reported()
    ensures { ForkIsReported }
{}

/// A version that has no row has a malformed file, reported with line and kind beside a file that is missing.
pub fn malformed_is_reported()
    ensures { MalformedIsReported }
{}

/// A module requires a version of the main module: it has no row, and what it requires has one. The rows after a path,
/// and the first of them.
pub fn own_path_is_left_out()
    ensures { OwnPathIsLeftOut }
{}

/// Files of go 1.18, 1.22 and 2.0 are pruned.
pub fn later_go_is_listed()
    ensures { LaterGoIsListed }
{}

/// Patch and major number, and pre-releases with numbers.
pub fn each_part_counts()
    ensures { EachPartCounts }
{}

/// A replace of a version and one of its path, in either order; a folder's file declares another path.
pub fn folders_are_listed()
    ensures { FoldersAreListed }
{}

/// Two versions of a path have faults, one of them a file that is too long.
pub fn two_faults_are_reported()
    ensures { TwoFaultsAreReported }
{}

/// A file without a module line, and a fault on line 12; an empty path is not a module's.
pub fn one_file_is_reported()
    ensures { OneFileIsReported }
{}

/// Paths that begin with a dash and with a capital letter, and one with a digit and a dash.
pub fn hosts_are_reported()
    ensures { HostsAreReported }
{}

/// The device fails on the file of a folder, of a fork or of a module deep down, first or last, and can't fail on a file
/// that was answered.
pub fn folder_device_is_reported()
    ensures { FolderDeviceIsReported }
{}

/// A go.sum without a line for a file, with another hash, and an invalid one.
pub fn sums_are_reported()
    ensures { SumsAreReported }
{}

/// A needed file that wasn't asked for, one that isn't needed or was asked for twice, or a device that failed on none of
/// the needed files: no run has these.
pub fn others_have_none()
    ensures { OthersHaveNone }
{}

/// A main file that requires 65,537 modules.
pub fn too_many_are_reported()
    ensures { TooManyAreReported }
{}

/// What single definitions say in these worlds, each from its own rules.
pub fn parts_are_shown()
    ensures { PartsAreShown }
{}

/// What single definitions don't say: that an excluded version is required, that what a pruned file requires is opened,
/// that a file which may not be asked for is needed, that the lesser of two versions has a row.
pub fn others_do_not_hold()
    ensures { OthersDoNotHold }
{}

/// Go 1.9 is below 1.17, go 1.19 to 3.0 are not; below an unpruned file everything is opened.
pub fn go_versions_are_told()
    ensures { GoVersionsAreTold }
{}

/// The parts of a version in their order; paths by their bytes.
pub fn orders_are_told()
    ensures { OrdersAreTold }
{}

/// An exclude is of one version of one path.
pub fn excludes_are_told()
    ensures { ExcludesAreTold }
{}

/// A replace is of one version or of one path; what its file may declare.
pub fn replaces_are_told()
    ensures { ReplacesAreTold }
{}

/// Host names, and texts to their last byte.
pub fn texts_are_told()
    ensures { TextsAreTold }
{}
