//! Copies of the definitions behind the commands other than `list`, tried on tables.
//!
//! Change one in specs/ and check: a row of a table in specs/Worlds is refused, and both values are shown.
#![tactic(auto)]

ghost use Rattle.page_commands.specs.Worlds.Chains.{ChainsAreShown, GraphsAreShown, LevelsAreLeast};
ghost use Rattle.page_commands.specs.Worlds.Edits.{
  DirectivesAreDropped,
  DirectivesAreReported,
  OperationsAreRefused,
  OthersAreSet,
  ReplacesAreReported,
  ReplacesAreSet,
  RequirementsAreSet,
};
ghost use Rattle.page_commands.specs.Worlds.Formats.{LinesAreLaidOut, SyntaxIsReported, WordsAreLaidOut};
ghost use Rattle.page_commands.specs.Worlds.Lines.{LinesAreEdited, LinesAreTold};
ghost use Rattle.page_commands.specs.Worlds.Parts.{MajorsAreTold, PartsAreTold};
ghost use Rattle.page_commands.specs.Worlds.Single.{NeedsAreExact, PartsAreExact, PathsAreExact};
ghost use Rattle.page_commands.specs.Worlds.Sums.{SumsAreRead};
ghost use Rattle.page_commands.specs.Worlds.Texts.{HashesAreTold, NamesAreTold, PathsAreTold, VersionsAreTold};
ghost use Rattle.page_commands.specs.Worlds.Versions.{DeviceIsReported, LatestFilesAreRead, ListsAreRead, RetractedAreLeftOut};

/// `versions`: which words of a list are its versions, and in which order.
pub fn lists_are_read()
    ensures { ListsAreRead }
{}

/// `versions`: which version is the latest, and which ones its go.mod retracts.
pub fn retracted_are_left_out()
    ensures { RetractedAreLeftOut }
{}

/// `versions`: what the go.mod of the latest version may say, and what is reported.
pub fn latest_files_are_read()
    ensures { LatestFilesAreRead }
{}

/// `versions`: a device that fails is reported with status 3, and a path that no proxy has.
pub fn device_is_reported()
    ensures { DeviceIsReported }
{}

/// `graph`: the order of the edges, and their text.
pub fn graphs_are_shown()
    ensures { GraphsAreShown }
{}

/// `chain`: to which row a chain leads, and its text.
pub fn chains_are_shown()
    ensures { ChainsAreShown }
{}

/// `chain`: no chain is longer than it must be, and of several the one through the least predecessors is shown.
pub fn levels_are_least()
    ensures { LevelsAreLeast }
{}

/// `fmt`: indentation, comments, blank lines.
pub fn lines_are_laid_out()
    ensures { LinesAreLaidOut }
{}

/// `fmt`: the spaces between words.
pub fn words_are_laid_out()
    ensures { WordsAreLaidOut }
{}

/// `fmt`: faults of the text.
pub fn syntax_is_reported()
    ensures { SyntaxIsReported }
{}

/// `edit`: where a requirement goes.
pub fn requirements_are_set()
    ensures { RequirementsAreSet }
{}

/// `edit`: what a drop takes with it.
pub fn directives_are_dropped()
    ensures { DirectivesAreDropped }
{}

/// `edit`: which replaces a new one takes the place of.
pub fn replaces_are_set()
    ensures { ReplacesAreSet }
{}

/// `edit`: excludes, retractions, go versions and the module directive.
pub fn others_are_set()
    ensures { OthersAreSet }
{}

/// `edit`: which texts are operations, and which versions must fit.
pub fn operations_are_refused()
    ensures { OperationsAreRefused }
{}

/// `edit`: faults of directives in the main file.
pub fn directives_are_reported()
    ensures { DirectivesAreReported }
{}

/// `edit`: faults of replaces, retractions and go versions in the main file.
pub fn replaces_are_reported()
    ensures { ReplacesAreReported }
{}

/// `edit`: faults and changes of single lines.
pub fn lines_are_edited()
    ensures { LinesAreEdited }
{}

/// What single definitions say of words, verbs, and of lines that are dropped.
pub fn lines_are_told()
    ensures { LinesAreTold }
{}

/// What a go.sum says of a file's hash.
pub fn sums_are_read()
    ensures { SumsAreRead }
{}

/// Hashes of files.
pub fn hashes_are_told()
    ensures { HashesAreTold }
{}

/// Module paths, and those that a proxy may have.
pub fn paths_are_told()
    ensures { PathsAreTold }
{}

/// Canonical versions, which of them fit a path, and their order.
pub fn versions_are_told()
    ensures { VersionsAreTold }
{}

/// Escaped texts, and the files of modules.
pub fn names_are_told()
    ensures { NamesAreTold }
{}

/// What single definitions say of bytes, kinds of faults, a dependency's file and lines of a go.sum.
pub fn parts_are_told()
    ensures { PartsAreTold }
{}

/// The major version of a path, which versions fit it, and the forms of pseudo-versions.
pub fn majors_are_told()
    ensures { MajorsAreTold }
{}

/// Module paths, major versions and pseudo-versions, told from others like them.
pub fn paths_are_exact()
    ensures { PathsAreExact }
{}

/// Single definitions, told from others like them.
pub fn parts_are_exact()
    ensures { PartsAreExact }
{}

/// `versions`: a path with a major version, and which files aren't needed.
pub fn needs_are_exact()
    ensures { NeedsAreExact }
{}
