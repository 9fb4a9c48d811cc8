//! Definitions of which the outcome of `list` consists, tried on small files and runs: a definition that meant
//! something else than its comment says would fail here. What they say of worlds of modules is tried in `page`, on
//! copies of them.

ghost use Rattle.gomod_laws.specs.ExampleRuns.{BadSumIsRefused, EmptyIsRefused, FilesAreRead, IsListedAlone, NumbersOrderVersions, RequiredIsAsked, ThreeEdgesLead};
ghost use Rattle.gomod_laws.specs.ExampleSums.{SumsSay};

/// `IsMainFile`, `IsFileReading`: `module m`, alone or with `require top.org v1.0.0`, is read as what it says, the
/// latter also as a module's file. So are the file of top.org, with a go version and two requirements, and `go 1.17`
/// alone, which declares no path.
pub fn files_are_read()
    ensures { FilesAreRead }
{}

/// `version_cmp`: as a version v1.10.0 is above v1.9.0, as a text below it.
pub fn numbers_order_versions()
    ensures { NumbersOrderVersions }
{}

/// `SaysOfHash`, `class_of_sum`: of the go.sum line `a.b v1.0.0/go.mod h1:A`, h1:A is good, h1:B differs, and v1.1.0 is
/// not listed. If the line of h1:B is there as well, h1:A differs too. Lines without `/go.mod`, and hashes of another
/// kind, list nothing. A file that isn't listed is `NoSum`, and one of another hash `SumDiffers`.
pub fn sums_say()
    ensures { SumsSay }
{}

/// `IsEdge`, `AreEdges`, `edge_cmp`: the main file requires top.org v1.0.0 and low.org v1.0.0, and excludes low.org
/// v1.1.0; the file of top.org requires mid.org v1.10.0 and the excluded version. Edges lead from the main module to
/// low.org and top.org, and from top.org to mid.org. If the main file requires nothing, none leaves top.org. The module
/// that an edge leaves counts before the one that it leads to.
pub fn three_edges_lead()
    ensures { ThreeEdgesLead }
{}

/// `ListEnds`: on `module m` alone `list` prints `m` and nothing else; on an empty file it reports
/// `go.mod:0: NoModule`.
pub fn one_is_listed()
    ensures alone { IsListedAlone }
    ensures empty { EmptyIsRefused }
{}

/// `ListEnds`, `AreInvalidSums`, `IsFirstInvalid`: beside a go.sum that is the line `a b`, `list` on `module m`
/// alone reports `go.sum:1: BadSum` and nothing else.
pub fn bad_sum_is_refused()
    ensures { BadSumIsRefused }
{}

/// `IsDue`, `AreFound`, `IsSettled`, `ListEnds`: on `module m` with `require top.org v1.0.0` `list` reports
/// `top.org@v1.0.0: Missing` if that is the answer, and `gomod: device at top.org@v1.0.0` if the device failed. Without
/// either it has no outcome; nor has it one if the device failed on another file, or on one that was answered, or if
/// another file was asked for as well, or the same one twice.
pub fn required_is_asked()
    ensures { RequiredIsAsked }
{}
