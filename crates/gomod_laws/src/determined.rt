//! Laws that a run is determined: the definitions allow one outcome of one input.

ghost use Rattle.gomod_laws.specs.DeterminedLaws.{OneForStores, OneGraph, OneOutcome, OneRefusal, PartsOfOneList};

/// A command has one outcome: output, report and status are a function of what it reads, of the files that its store
/// was asked for in the run, its answers, and the files at which its device failed.
pub fn one_outcome()
    ensures { OneOutcome }
{}

/// Two runs of a command over the same main file and go.sum have one outcome, if the two stores answered no file
/// differently and their devices failed at the same files, or at none. It doesn't matter what else was asked, nor in
/// which order.
pub fn one_store()
    ensures { OneForStores }
{}

/// When `graph` prints edges, the rows of `list` are the build list of exactly these edges, and `chain`
/// prints the chain over exactly these edges to the build list's entry for the path. When `graph` reports an
/// error, the other two print nothing and report the same.
pub fn one_graph()
    ensures graph { OneGraph }
    ensures refusal { OneRefusal }
{}

/// For any path and limit, `list` prints rows of that one list: either all rows or exactly those after the
/// row of the path, cut off at the limit. A path that has no row is reported.
pub fn parts_of_one_list()
    ensures { PartsOfOneList }
{}
