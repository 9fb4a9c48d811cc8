//! Outputs of a command that take fewer bytes than it writes.

use crate::differences::Differences;
use crate::outcomes::{Outcome, Room};
use gomod_case_files::Run;

/// One of the two outputs of a command.
#[derive(Clone, Copy)]
pub enum Output {
    /// Standard output.
    Out,
    /// Standard error.
    Report,
}

impl Output {
    /// What a command is expected to write to it.
    pub fn wanted<'a>(self, run: &'a Run<'_>) -> &'a [u8] {
        match self {
            Output::Out => run.out.as_slice(),
            Output::Report => run.report.as_slice(),
        }
    }

    /// What a command wrote to it.
    pub fn written<'a>(self, outcome: &'a Outcome) -> &'a [u8] {
        match self {
            Output::Out => outcome.out.bytes(),
            Output::Report => outcome.report.bytes(),
        }
    }

    /// Room for this many bytes in it, and for all that a command writes to the other.
    pub fn room(self, run: &Run<'_>, length: usize) -> Room {
        let (out, report) = (run.out.len(), run.report.len());
        match self {
            Output::Out => Room {
                out: length,
                report,
            },
            Output::Report => Room {
                out,
                report: length,
            },
        }
    }
}

/// Reports the result that a command had over an output that was full.
pub fn report_full(run: &Run<'_>, outcome: &Outcome, length: usize, differences: &mut Differences) {
    differences.command(run, "over an output that fails");
    differences.number("  after so many bytes", length);
    differences.outcome(outcome);
}
