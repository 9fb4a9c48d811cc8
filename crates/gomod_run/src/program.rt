//! The program itself: from the words of the command line to the exit status. It is generic over the runtime and
//! the two sinks, so that whole runs can be checked without a process.

ghost use Rattle.std.specs.Prelude.{◌≡◌, ◌∷◌, IfOk, MatchResult, None, codes, map};
ghost use Rattle.std.specs.Process.{exit_status};
ghost use Rattle.std.specs.String.{string_bytes};
ghost use Rattle.gomod_run.specs.Program.{IsProgramOutcome, IsProgramStatus, IsWordsOutcome, any_input, anything, ending_code, usage_outcome};
ghost use Rattle.gomod_run.specs.Written.{EndsAsStated, IsWritten};

use crate::command::run_command;
use crate::ending::Ending;
use crate::writing::{write_report, write_text};
use gm_store::{FileSystem, Sink, StandardInput, StdSink, WriteFault, write_all};
use gomod_texts::{Report, Status, write_line};
use gomod_words::{UsageFault, Words, given_words, read_words};
use std::alloc::{AllocError, Global};
use std::process::ExitCode;

/// The program's name in the words that are read, whatever the program was called by. No command uses that name, so it
/// may have any bytes.
const PROGRAM: &str = "gomod";

/// The whole program: reads the words of the command line and runs the command, with standard output and standard
/// error as the two sinks.
///
/// The exit status is that of `ending_of_words`, 2 for a usage error, or 3 if memory runs out, or a device or an
/// output fails.
pub fn exit_code(rt: &HostRuntime) -> ExitCode
    ensures { IsProgramStatus anything any_input None (exit_status result) }
{
    let mut out = StdSink::new(rt.stdout());
    let mut report = StdSink::new(rt.stderr());
    ExitCode::from(ending_of(rt, &mut out, &mut report).code())
}

/// Reads the words of the command line after the program's own name, and does what `ending_of_words` does with them
/// after the name `gomod`. If a word is not UTF-8, the report is a usage error that shows the first such word with its
/// bytes escaped, and the status is 2. The program's own name is not looked at.
pub fn ending_of<
    S: Words + StandardInput + FileSystem + Copy + Drop + Alloc<A = Global>,
    O: Sink,
    R: Sink,
>(rt: &S, out: &mut O, report: &mut R) -> Ending
    ensures { EndsAsStated (IsProgramOutcome (S.may_open rt.now) (S.may_take rt.now) (S.given rt.now))
        (O.state out.old) (O.state out.new) (R.state report.old) (R.state report.new)
        (ending_code result) }
{
    let words = match given_words(rt) {
        Ok(words) => words,
        Err(fault) => return ending_of_fault(&fault, out, report),
    };
    match texts_of(rt.alloc(), words.as_slice()) {
        Ok(texts) => ending_of_words(rt, texts.as_slice(), out, report),
        Err(_) => Ending::Run(write_report(report, &Report::NoMemory)),
    }
}

/// Runs the command that the words of a command line ask for, and returns how the program ends. The first word is the
/// program's name.
///
/// | Command | Reads |
/// |---|---|
/// | `fmt`, `edit` | the FILE that the words name |
/// | `versions` with proxy folders | the folders |
/// | `versions` without | standard input, as the module's list |
/// | `graph`, `list`, `chain` | the main file, then the go.sum if one is named, then the proxy folders if any |
///
/// FILE, the main file and the go.sum are standard input if the words name them `-`.
///
/// | Status | Output | When |
/// |---|---|---|
/// | 0, 1, 3 | that of `run` | the words are a command, and its files could be read |
/// | 0 | help on `out` | the words ask for help |
/// | 0 | the version on `out` | the words ask for the version |
/// | 2 | the usage error on `report` | the words are invalid (`gomod_words::read_words` says which error) |
/// | 3 | `gomod: cannot read NAME` on `report` | a named file or standard input (`-`) can't be read |
///
/// The first file that can't be read is reported, and no go.mod is parsed then. At most 16,777,217 bytes of a file
/// or of standard input are read: one more than a command accepts, so that the command sees that there are too
/// many. If memory runs out, the report is `gomod: no memory`; if an output fails, it has a prefix of its text.
/// The status is 3 then.
pub fn ending_of_words<
    S: StandardInput + FileSystem + Copy + Drop + Alloc<A = Global>,
    O: Sink,
    R: Sink,
>(rt: &S, words: &[&str], out: &mut O, report: &mut R) -> Ending
    ensures { EndsAsStated
        (IsWordsOutcome (S.may_open rt.now) (S.may_take rt.now) (map (λ word. word.now) words.now))
        (O.state out.old) (O.state out.new) (R.state report.old) (R.state report.new)
        (ending_code result) }
{
    match read_words(rt.alloc(), words) {
        Ok((command, places)) => Ending::Run(run_command(rt, &command, places, out, report)),
        Err(fault) => ending_of_fault(&fault, out, report),
    }
}

/// The program's name, then the words as string slices, all of them and in order.
fn texts_of(alloc: Global, words: &[String]) -> Result<Vec<&str>, AllocError>
    ensures { IfOk result (λ texts. map (λ text. text.now) texts.items ≡ codes "gomod" ∷ map string_bytes words.now) }
{
    let mut texts = Vec::new(alloc);
    texts.push(PROGRAM)?;
    for word in words {
        texts.push(word.as_str())?;
    }
    Ok(texts)
}

/// Shows help or the version, or reports a usage error.
fn ending_of_fault<O: Sink, R: Sink>(fault: &UsageFault, out: &mut O, report: &mut R) -> Ending
    ensures { IsWritten (usage_outcome fault.now)
        (O.state out.old) (O.state out.new) (R.state report.old) (R.state report.new)
        (ending_code result) }
{
    match fault {
        UsageFault::NoMemory => Ending::Run(write_report(report, &Report::NoMemory)),
        UsageFault::Help(text) => Ending::Run(write_text(out, text.as_str())),
        UsageFault::Version(text) => Ending::Run(write_text(out, text.as_str())),
        UsageFault::Line(text) => usage_error(write_all(report, text.as_str().as_bytes())),
        UsageFault::BadPath(path) => {
            usage_error(write_line(report, &["gomod: bad path ", path.as_str()]))
        }
        UsageFault::BadProxy(value) => {
            usage_error(write_line(report, &["gomod: bad proxy ", value.as_str()]))
        }
    }
}

/// The ending of a usage error, given whether it was written.
fn usage_error(written: Result<(), WriteFault>) -> Ending
    ensures { MatchResult written (λ _. ending_code result ≡ 2) (λ _. ending_code result ≡ 3) }
{
    match written {
        Ok(()) => Ending::Usage,
        Err(_) => Ending::Run(Status::Device),
    }
}
