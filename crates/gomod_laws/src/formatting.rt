//! Laws of formatting a file, each the contract of a function that does nothing.

ghost use Rattle.gomod_laws.specs.FormattingLaws.{FormattingChangesNoBuild, LayoutsAreFormatted};

/// Formatting changes no build. `list`, `graph` and `chain` come to the same over a valid main file and over what
/// `fmt` prints of it, whether they print or refuse, as long as that text is short enough to be read.
pub fn formatting_changes_no_build()
    ensures { FormattingChangesNoBuild }
{}

/// What `fmt` prints stays as it is if it is formatted again, as long as it is short enough to be read.
pub fn layouts_are_formatted()
    ensures { LayoutsAreFormatted }
{}
