//! Command lines over files that can't be opened, and over a store that fails at a file.

use crate::program::Program;
use crate::workspace::Workspace;
use gm_store::FileName;
use gomod_case_files::Run;
use gomod_case_runs::{
    Differences, Parsed, Room, fails_after, report_failing, report_of, report_of_device, room_for,
};
use std::alloc::AllocError;

/// The outputs of a command that writes a line.
const A_LINE: Room = Room {
    out: 65_536,
    report: 65_536,
};

/// Runs a command that looks into one proxy folder at most over files that can't be opened, and a store that fails.
pub(crate) fn sweep_asks<P: Program>(
    workspace: &Workspace<'_, P>,
    run: &Run<'_>,
    parsed: &Parsed,
    differences: &mut Differences,
) -> Result<(), AllocError> {
    // a file may be looked for in several folders
    if parsed.folder_count() > 1 {
        return Ok(());
    }
    match workspace.memory().outcome(parsed, None, room_for(run))? {
        Some(found) => sweep_asked(workspace, run, parsed, found.asked.as_slice(), differences),
        None => Ok(()),
    }
}

/// Does so by the files that the command asks for over a store that doesn't fail.
fn sweep_asked<P: Program>(
    workspace: &Workspace<'_, P>,
    run: &Run<'_>,
    parsed: &Parsed,
    asked: &[FileName],
    differences: &mut Differences,
) -> Result<(), AllocError> {
    // a list on standard input is asked for but not opened
    let opened = if parsed.folder_count() == 0 {
        &[]
    } else {
        asked
    };
    sweep_opens(workspace, run, opened, differences)?;
    sweep_refusals(workspace, run, parsed, asked, differences)
}

/// Runs a command once for each of its files, which can't be opened then. It must write nothing, and report that file.
/// The store is asked for the last of these files.
fn sweep_opens<P: Program>(
    workspace: &Workspace<'_, P>,
    run: &Run<'_>,
    asked: &[FileName],
    differences: &mut Differences,
) -> Result<(), AllocError> {
    let real = workspace.outcome(run, room_for(run))?;
    sweep_opened(workspace, run, asked, real.opened.as_slice(), differences)
}

/// Runs a command once for each of the files that it opened.
fn sweep_opened<P: Program>(
    workspace: &Workspace<'_, P>,
    run: &Run<'_>,
    asked: &[FileName],
    opened: &[String],
    differences: &mut Differences,
) -> Result<(), AllocError> {
    let Some(named) = opened.len().checked_sub(asked.len()) else {
        differences.command(run, "which opens fewer files than it asks for");
        differences.opened(opened);
        return Ok(());
    };
    for (left, name) in opened.iter().enumerate() {
        if differences.is_empty() {
            let asked = left.checked_sub(named).and_then(|at| asked.get(at));
            let wanted = report_of(workspace.alloc(), asked, name.as_str())?;
            check_failing(workspace, run, left, wanted.as_str(), differences)?;
        }
    }
    Ok(())
}

/// Runs a command that can open this many files and not the next one, of which it must make this report.
fn check_failing<P: Program>(
    workspace: &Workspace<'_, P>,
    run: &Run<'_>,
    left: usize,
    wanted: &str,
    differences: &mut Differences,
) -> Result<(), AllocError> {
    let failing = workspace.failing_after(run, room_for(run), left)?;
    if !failing.outcome.is_failure(wanted) {
        report_failing(run, &failing, wanted, differences);
    }
    Ok(())
}

/// Makes the store fail at each file that a command asks for, one at a time. The command must write nothing, report
/// that file, and ask for the files before it and no other.
fn sweep_refusals<P: Program>(
    workspace: &Workspace<'_, P>,
    run: &Run<'_>,
    parsed: &Parsed,
    asked: &[FileName],
    differences: &mut Differences,
) -> Result<(), AllocError> {
    for index in 0..asked.len() {
        if differences.is_empty() {
            check_refused(
                workspace,
                run,
                parsed,
                &asked[index],
                &asked[..index],
                differences,
            )?;
        }
    }
    Ok(())
}

/// Runs a command over a store that fails at a file. It must report that file, and ask for those before it alone.
fn check_refused<P: Program>(
    workspace: &Workspace<'_, P>,
    run: &Run<'_>,
    parsed: &Parsed,
    refused: &FileName,
    before: &[FileName],
    differences: &mut Differences,
) -> Result<(), AllocError> {
    let report = report_of_device(workspace.alloc(), refused)?;
    let found = workspace.memory().outcome(parsed, Some(refused), A_LINE)?;
    if !fails_after(&found, report.as_str(), before) {
        differences.command(run, "over a store that fails at a file");
        differences.text("!", report.as_bytes());
    }
    Ok(())
}
