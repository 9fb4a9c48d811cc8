//! What the cases are run with.

ghost use Rattle.std.specs.Prelude.{◌≡◌, []};

use gm_store::{Files, MemorySink};
use gomod_case_runs::CaseRuntime;
use gomod_words::Command;
use std::alloc::Global;

/// The program that cases are run with. A run writes to the two sinks, and its result is the exit status.
pub trait Program: Drop {
    /// Runs the program with the words of a runtime.
    fn status_in(
        &self,
        runtime: &CaseRuntime<'_, '_>,
        out: &mut MemorySink,
        report: &mut MemorySink,
    ) -> u8;

    /// Runs a command over the bytes of a main file, those of a go.sum if one is given, and a store that was asked for
    /// nothing yet.
    fn status_over<F: Files>(
        &self,
        alloc: Global,
        command: &Command,
        main: &[u8],
        sums: Option<&[u8]>,
        files: &mut F,
        out: &mut MemorySink,
        report: &mut MemorySink,
    ) -> u8
        requires { (F.state files.old).asked ≡ [] };
}
