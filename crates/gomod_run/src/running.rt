//! Running one command, from bytes that have been read to bytes that are written.

ghost use Rattle.std.specs.Prelude.{◌≡◌, [], None, false};
ghost use Rattle.std.specs.Option.{option_map};
ghost use Rattle.gomod_texts.specs.Outcome.{code_of};
ghost use Rattle.gomod_outcomes.specs.Runs.{HoldsAtAnyEnd, RunEnds, is_query, run_between};
ghost use Rattle.gomod_run.specs.Written.{EndsAsStated, IsWritten};

use crate::writing::write_outcome;
use gm_store::{Asks, Sink};
use gomod_outcomes::outcome;
use gomod_texts::Status;
use gomod_words::Command;
use std::alloc::Global;

/// Runs a command over the bytes of a main file, those of a go.sum if one is given, and a store that has not
/// been asked yet, and writes its outcome: either a text to `out`, with the status `Done`, or a report to `report`,
/// with another status. `sums` must be `None` for `fmt`, `edit` and `versions`, which check no hashes.
///
/// | Command | Reads, in this order | Text |
/// |---|---|---|
/// | `fmt` | the syntax of the main file, nothing else | the layout of the file |
/// | `edit` | the main file, strictly, then each operation | the layout after all operations |
/// | `versions` | the module's list, then the go.mod of the latest version | the path and its versions on one line |
/// | `graph` | the main file, the go.sum, the go.mod files of the opened modules | the edges of the module graph |
/// | `list` | as `graph` | rows of the build list |
/// | `chain` | as `graph` | a shortest chain of requirements |
///
/// | Report | Status | When |
/// |---|---|---|
/// | `go.mod:LINE: KIND` | `Fault` | `fmt`, `edit`: the main file has a fault; line 0 is the whole file |
/// | `edit N: Spelling` | `Fault` | `edit`: the N-th operation, counted from 1, is invalid |
/// | `edit N: Misfit` | `Fault` | `edit`: a version in the N-th operation does not fit its path |
/// | `PATH: NotFetchable` | `Fault` | `versions`: a proxy can't have this module |
/// | `PATH: Missing`, `PATH: TooLong` | `Fault` | `versions`: the store has no list, or one that is too long |
/// | `PATH@VERSION: Missing`, `PATH@VERSION: TooLong` | `Fault` | `versions`: likewise the latest version's go.mod |
/// | `PATH@VERSION: Malformed LINE KIND` | `Fault` | `versions`: that go.mod has a fault |
/// | as `answer` says | `Fault` | `graph`, `list`, `chain`: no answer can be given |
/// | `gomod: device at NAME` | `Device` | the store's device fails at a needed file |
/// | `gomod: no memory` | `Device` | memory runs out |
///
/// If memory runs out, `gomod: no memory` may replace any of these except the report of the store's device and the
/// reports of `versions` that there is no list to read. No report takes memory.
///
/// `edit`: each operation applies to what those before it left, and the first that is refused is reported. A version
/// must fit its path if the operation requires or excludes it, or has it on the left of its replace (go help mod
/// edit; that a refusal prints nothing is this program's own rule). With no operation the text is the layout of the
/// file.
///
/// `versions`: the path is checked first, and the main file is not read. The go.mod of the latest version is read
/// for its retractions, and the versions that they contain are left out. If all versions are asked for, or the list
/// has none, it is not read, and every listed version is printed. The order is ascending.
///
/// `graph`, `list` and `chain`: text and report are those of `answer`.
///
/// The store is asked only for files that are needed, each at most once. If a sink fails, the status is `Device`:
/// the sink holds a prefix of what was meant for it, and nothing more is written.
pub fn run<F: Asks, O: Sink, R: Sink>(
    alloc: Global,
    command: &Command,
    main: &[u8],
    sums: Option<&[u8]>,
    files: &mut F,
    out: &mut O,
    report: &mut R,
) -> Status
    // Otherwise the outcome could depend on answers of an earlier run.
    requires unasked { (F.state files.old).asked ≡ [] }
    // A go.sum that such a command ignored would pass for one that was checked.
    requires no_sums { is_query command.now ≡ false → option_map (λ sums. sums.now) sums ≡ None }
    // How a run of each command ends, or memory runs out. All asks and all allocations come before the first byte is
    // written, so a report never follows part of a text.
    ensures ends { EndsAsStated (RunEnds command.now
        (run_between main.now (option_map (λ sums. sums.now) sums.entry) (F.state files.old) (F.state files.new)))
        (O.state out.old) (O.state out.new) (R.state report.old) (R.state report.new) (code_of result) }
    // However it ends: which files are asked for, that the answers are the store's own, and what is reported whatever
    // the memory. `fmt` and `edit` need no file. `graph`, `list` and `chain` need the go.mod files of the opened
    // modules, and none if the main file or the go.sum can't be parsed (Go Modules Reference, "Minimal version
    // selection" and "Module graph pruning").
    ensures holds { HoldsAtAnyEnd command.now main.now (option_map (λ sums. sums.now) sums.entry)
        (F.may_answer files.old) (F.may_answer files.new) (F.state files.old) (F.state files.new) (code_of result)
        (λ outcome. IsWritten outcome
        (O.state out.old) (O.state out.new) (R.state report.old) (R.state report.new) (code_of result)) }
{
    let ended = outcome(alloc, command, main, sums, files);
    write_outcome(ended, out, report)
}
