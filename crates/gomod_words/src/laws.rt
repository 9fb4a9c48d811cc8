//! Laws of what words ask for, each the contract of a function that does nothing.

ghost use Rattle.gomod_words.specs.Laws.{CommandsHaveNoFault, NothingIsAsked, VersionIsAsked};

/// `gomod --version` and `gomod -V` ask for the version and for nothing else: `read_words` answers with it, unless
/// memory runs out.
pub fn version_asked()
    ensures { VersionIsAsked }
{}

/// `gomod` without words is a usage error. It is neither a command nor a request for help.
pub fn nothing_asked()
    ensures { NothingIsAsked }
{}

/// Words that ask for a command have no fault. So `read_words` refuses them only if memory runs out, and words with a
/// fault, such as an invalid path, ask for no command.
pub fn commands_have_no_fault()
    ensures { CommandsHaveNoFault }
{}
