//! A law of `list`, `graph` and `chain` together: why each row is listed.

ghost use Rattle.gomod_laws.specs.RowLaws.{EachRowIsExplained};

/// Each row is explained. If `list` prints the build list of a run or a part of it, `graph` prints the module graph
/// over the same files. `chain` prints for the path of each row: its first line is the main module's path, its last
/// line is that row's module at its version, left of an arrow, and each two lines in turn, joined by a space, are a
/// line of `graph`. A path without a row is reported as `NotListed`.
pub fn each_row_is_explained()
    ensures { EachRowIsExplained }
{}
