//! Laws over the definitions of module graphs. They show that these mean what the Go Modules Reference says,
//! independently of any code.

ghost use Rattle.gomod_laws.specs.GraphLaws.{EarlierSayingsStay, FirstAnswersSaySomething, ModulesSayOneThing, OneAnswer, RepliesSayOneThing, RowsAreRequired, RowsSatisfyRequirements, UnprunedIsPlain};

/// A reply to a name has one meaning: one fault, or one file's contents.
pub fn replies_say_one_thing()
    ensures { RepliesSayOneThing }
{}

/// The file of a module says one thing: one fault, or one file's contents.
pub fn modules_say_one_thing()
    ensures { ModulesSayOneThing }
{}

/// More requests change nothing that a module's file said before, and the first of some answers say something if all do.
pub fn earlier_sayings_stay()
    ensures stays { EarlierSayingsStay }
    ensures first { FirstAnswersSaySomething }
{}

/// Each row's version is required by the main module or by an opened vertex (Go Modules Reference, "Minimal version
/// selection").
pub fn rows_are_required()
    ensures { RowsAreRequired }
{}

/// Each requirement of the main module or of an opened vertex has a row, whose version is not below the required
/// one. Requirements on the main module's path are excepted (Go Modules Reference, "Minimal version selection").
pub fn rows_satisfy()
    ensures { RowsSatisfyRequirements }
{}

/// If the main file is unpruned, exactly the vertices that requirements reach are opened: plain minimal version
/// selection.
pub fn unpruned_is_plain()
    ensures { UnprunedIsPlain }
{}

/// The main file, the go.sum and the store's answers determine the list of faults, the list of edges and the build list.
pub fn one_answer()
    ensures { OneAnswer }
{}
