//! The definitions of what is written and of what is read, tried on small sinks, files, stores and words: a definition
//! that asked for less would fail here.
//!
//! A run prints `m`, or reports `go.mod:1: BadLine`. A sink has room for 20 bytes or for one, tells only what it took,
//! or tells nothing, as a terminal.

ghost use Rattle.gomod_laws.specs.ExampleOutputs.{BothAreWritten, EndIsStated, FailureIsCounted, FileIsRead, InputIsHeld, InputIsUnread, OutcomeIsWritten, PrefixIsTaken, PrefixIsWritten, TextIsTaken, WordsAreGiven};

/// `HasCountedFailure`, `TookAll`, `TookPrefix`: a sink took a text if it has that after what it had, and as much less
/// room. It took a prefix if it failed, which was counted, and has as much of that text as fits. It did neither if it
/// has nothing or another text.
pub fn text_is_taken()
    ensures counted { FailureIsCounted }
    ensures whole { TextIsTaken }
    ensures prefix { PrefixIsTaken }
{}

/// `WroteBoth`, `WrotePrefix`, `IsWritten`, `EndsAsStated`: a run that prints `m` has that on its output and nothing on
/// the other sink, with status 0; or as much of it as the output took, with status 3. No run was written so that prints
/// nothing or another text, that reports on the output or beside a text, or that ends with status 0 or 1 after a sink
/// failed.
pub fn output_is_written()
    ensures both { BothAreWritten }
    ensures prefix { PrefixIsWritten }
    ensures outcome { OutcomeIsWritten }
    ensures stated { EndIsStated }
{}

/// `IsReadFrom`: a file of `m` gives neither other bytes nor fewer, and a file that is longer than 16,777,217 bytes not
/// all of its. A file of which no read may fail gives its bytes, unless memory runs out. A file that could not be
/// opened gives none, and memory ran out there only if the system says so.
pub fn file_is_read()
    ensures { FileIsRead }
{}

/// `FileGives`, `IsUnread`: standard input can't be read if `gomod: cannot read -` is reported, with status 3, and a
/// read of it may fail. Nothing else says so.
pub fn input_is_unread()
    ensures { InputIsUnread }
{}

/// `IsInput`, `file_in_memory`: the store of `versions m` answers for the list of m with all bytes that were read of
/// standard input and no others, and has no other list or file. Without the module it has none.
pub fn input_is_held()
    ensures { InputIsHeld }
{}

/// `IsProgramOutcome`: given the one word `--version` the program prints the version, unless memory runs out, and
/// reports no usage error. Given none it prints nothing. Of words that are not UTF-8 it shows the first.
pub fn words_are_given()
    ensures { WordsAreGiven }
{}
