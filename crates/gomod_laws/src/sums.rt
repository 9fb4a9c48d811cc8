//! Laws of a go.sum: it can refuse what would be printed, and change nothing else.

ghost use Rattle.gomod_laws.specs.SumLaws.{NeedlessLinesChangeNothing, OnlyRefuses, RightSumsChangeNothing, SumLinesInAnyOrder};

/// A go.sum only refuses: what `list`, `graph` or `chain` prints with a go.sum, it prints without one.
pub fn only_refuses()
    ensures { OnlyRefuses }
{}

/// A valid go.sum that has the right hash of each needed file of a proxy, and no other hash of that file, changes
/// nothing: `list`, `graph` and `chain` come to what they come to without it, refusals included.
pub fn right_sums_change_nothing()
    ensures { RightSumsChangeNothing }
{}

/// The order of the lines of a go.sum doesn't matter. `list`, `graph` and `chain` come to the same with either of two
/// valid go.sums, refusals included.
pub fn sum_lines_in_any_order()
    // if they have the same lines, in whatever order and however often
    ensures order { SumLinesInAnyOrder }
    // if one has more lines, each on a file that is not needed or with a hash of another algorithm
    ensures needless { NeedlessLinesChangeNothing }
{}
