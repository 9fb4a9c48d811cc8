//! The gomod program: the module half of the go command, offline. Everything is in the library `gomod_run`, because a
//! program crate can show one stored run only: this one, which ends with status 0.
#![tactic(auto)]

use std::process::ExitCode;

/// Runs the program and returns its exit status.
fn main(rt: HostRuntime) -> ExitCode {
    gomod_run::exit_code(&rt)
}
