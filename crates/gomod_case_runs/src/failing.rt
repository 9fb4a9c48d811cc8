//! What a command reports of a file that can't be opened, or at which its store fails.

use crate::differences::Differences;
use crate::results::{InMemory, Real};
use gm_store::FileName;
use gomod_case_files::Run;
use std::alloc::{AllocError, Global};

/// The report of a command that can't open a file: one that the store was asked for, or one that its words name.
pub fn report_of(
    alloc: Global,
    asked: Option<&FileName>,
    name: &str,
) -> Result<String, AllocError> {
    match asked {
        Some(asked) => report_of_device(alloc, asked),
        None => format!(in alloc; "gomod: cannot read {name}\n"),
    }
}

/// The report of a command whose store fails at a file.
pub fn report_of_device(alloc: Global, asked: &FileName) -> Result<String, AllocError> {
    let mut report = String::from_str(alloc, "gomod: device at ")?;
    push_label(&mut report, asked)?;
    report.push('\n')?;
    Ok(report)
}

/// Appends the name of a file in a report.
fn push_label(report: &mut String, name: &FileName) -> Result<(), AllocError> {
    match name {
        FileName::Mod(path, version) => write!(report, "{path}@{version}"),
        FileName::Folder(folder) => report.push_str(folder.as_str()),
        FileName::List(path) => write!(report, "{path} list"),
    }
}

/// Reports the result that a command had when a file couldn't be opened.
pub fn report_failing(run: &Run<'_>, failing: &Real, report: &str, differences: &mut Differences) {
    differences.command(run, "where its last file can't be opened");
    differences.opened(failing.opened.as_slice());
    differences.outcome(&failing.outcome);
    differences.line("  wanted:");
    differences.text("!", report.as_bytes());
}

/// Whether a command failed with this report, after it asked for these files.
pub fn fails_after(found: &Option<InMemory>, report: &str, before: &[FileName]) -> bool {
    match found {
        Some(found) => found.outcome.is_failure(report) && found.asked.as_slice() == before,
        None => false,
    }
}
