//! Commands over outputs with room for exactly what they write, and for fewer bytes.

use crate::program::Program;
use crate::workspace::Workspace;
use gomod_case_runs::{
    DEVICE, Differences, Outcome, Output, ParsedRun, Room, begins_line, is_cut, is_short,
    is_wanted, report_full,
};
use std::alloc::AllocError;

/// Runs a command over outputs with room for exactly what it writes, and for fewer bytes. With exactly that room it
/// must have the result of the case; with less it must write as much as there is room for, and end with status 3.
pub(crate) fn sweep_outputs<P: Program>(
    workspace: &Workspace<'_, P>,
    parsed_run: &ParsedRun<'_>,
    differences: &mut Differences,
) -> Result<(), AllocError> {
    let run = parsed_run.run;
    let longer = run.out.len().max(run.report.len());
    let is_cut_everywhere = workspace.case.is_cut_everywhere || is_short(longer);
    check_exact(workspace, parsed_run, false, differences)?;
    check_exact(workspace, parsed_run, true, differences)?;
    sweep_output(
        workspace,
        parsed_run,
        Output::Out,
        is_cut_everywhere,
        differences,
    )?;
    sweep_output(
        workspace,
        parsed_run,
        Output::Report,
        is_cut_everywhere,
        differences,
    )
}

/// Runs a command over outputs with room for exactly what it writes.
fn check_exact<P: Program>(
    workspace: &Workspace<'_, P>,
    parsed_run: &ParsedRun<'_>,
    is_real: bool,
    differences: &mut Differences,
) -> Result<(), AllocError> {
    let run = parsed_run.run;
    let room = Room {
        out: run.out.len(),
        report: run.report.len(),
    };
    let outcome = outcome_within(workspace, parsed_run, room, is_real)?;
    if !is_wanted(run, &outcome) {
        differences.command(run, "over outputs with exactly the room of what it writes");
        differences.outcome(&outcome);
    }
    Ok(())
}

/// Runs a command with less room for one of its outputs than it needs.
fn sweep_output<P: Program>(
    workspace: &Workspace<'_, P>,
    parsed_run: &ParsedRun<'_>,
    output: Output,
    is_cut_everywhere: bool,
    differences: &mut Differences,
) -> Result<(), AllocError> {
    let wanted = output.wanted(parsed_run.run);
    for length in 0..wanted.len() {
        if differences.is_empty() && is_cut(wanted, length, is_cut_everywhere) {
            let is_real = begins_line(wanted, length);
            check_full(
                workspace,
                parsed_run,
                output,
                &wanted[..length],
                is_real,
                differences,
            )?;
        }
    }
    Ok(())
}

/// Runs a command with room for only these bytes in one of its outputs.
fn check_full<P: Program>(
    workspace: &Workspace<'_, P>,
    parsed_run: &ParsedRun<'_>,
    output: Output,
    fitting: &[u8],
    is_real: bool,
    differences: &mut Differences,
) -> Result<(), AllocError> {
    let room = output.room(parsed_run.run, fitting.len());
    let outcome = outcome_within(workspace, parsed_run, room, is_real)?;
    if outcome.status != DEVICE || output.written(&outcome) != fitting {
        report_full(parsed_run.run, &outcome, fitting.len(), differences);
    }
    Ok(())
}

/// The result of a command over outputs with this room, in memory or, if that is wanted or it can't be run in
/// memory, over real files.
fn outcome_within<P: Program>(
    workspace: &Workspace<'_, P>,
    parsed_run: &ParsedRun<'_>,
    room: Room,
    is_real: bool,
) -> Result<Outcome, AllocError> {
    if is_real {
        return workspace.result(parsed_run.run, room);
    }
    match workspace.memory().found_outcome(parsed_run, room)? {
        Some(outcome) => Ok(outcome),
        None => workspace.result(parsed_run.run, room),
    }
}
