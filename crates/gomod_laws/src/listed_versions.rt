//! A law of `versions`.

ghost use Rattle.gomod_laws.specs.VersionLaws.{RetractedAreLeftOut};

/// Retracted versions are left out, and no others. If `versions` prints without `--retracted`, it prints with it, over
/// a store that answers no file differently. With it, it prints all versions that the list file names. Without it, it
/// prints those of them that the go.mod of the latest one does not retract, in the same order. The latest version is
/// the greatest release, or the greatest version if there is no release.
pub fn retracted_are_left_out()
    ensures { RetractedAreLeftOut }
{}
