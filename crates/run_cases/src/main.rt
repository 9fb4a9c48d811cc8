//! Runs the program over cases in text files, and reports those whose results differ. The command line names the
//! files. docs/dev/CASES.md has their form.
#![tactic(auto)]

ghost use Rattle.std.specs.Prelude.{◌≡◌, None, false};
ghost use Rattle.std.specs.Option.{option_map};
ghost use Rattle.gomod_outcomes.specs.Runs.{is_query};

use gm_store::{Files, MemorySink};
use gomod_case_checks::Program;
use gomod_case_runs::CaseRuntime;
use gomod_run::{Command, ending_of, run};
use std::alloc::Global;
use std::process::ExitCode;

/// The program that the cases are run with.
#[derive(Drop)]
struct Gomod;

impl Program for Gomod {
    fn status_in(
        &self,
        runtime: &CaseRuntime<'_, '_>,
        out: &mut MemorySink,
        report: &mut MemorySink,
    ) -> u8 {
        ending_of(runtime, out, report).code()
    }

    fn status_over<F: Files>(
        &self,
        alloc: Global,
        command: &Command,
        main: &[u8],
        sums: Option<&[u8]>,
        files: &mut F,
        out: &mut MemorySink,
        report: &mut MemorySink,
    ) -> u8 {
        let sums = sums_for(command, sums);
        run(alloc, command, main, sums, files, out, report).code()
    }
}

/// The go.sum that a command is run with: those that check no hashes take none.
fn sums_for<'a>(command: &Command, sums: Option<&'a [u8]>) -> Option<&'a [u8]>
    ensures { is_query command.now ≡ false → option_map (λ sums. sums.now) result ≡ None }
{
    match command {
        Command::Graph | Command::List { .. } | Command::Chain(_) => sums,
        Command::Fmt | Command::Edit(_) | Command::Versions { .. } => None,
    }
}

/// Runs the cases, reports on standard error, and returns the exit status.
fn main(rt: HostRuntime) -> ExitCode {
    gomod_case_checks::exit_code(&rt, &Gomod)
}
