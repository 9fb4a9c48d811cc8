//! Laws of the definitions of a run, each the contract of a function that does nothing.

ghost use Rattle.gomod_run.specs.Laws.{NothingIsPrinted, VersionIsPrinted};

/// `gomod --version` and `gomod -V` print the version and the kit that the program is proved with, and end with status
/// 0, unless memory runs out.
pub fn version_printed()
    ensures { VersionIsPrinted }
{}

/// `gomod` without words prints nothing to its output and ends with status 2, unless memory runs out.
pub fn nothing_printed()
    ensures { NothingIsPrinted }
{}
