//! Commands over files of which one is cut off.

use crate::memory::Memory;
use crate::program::Program;
use crate::workspace::Workspace;
use gomod_case_files::View;
use gomod_case_runs::{
    CutFile, Differences, Outcome, ParsedRun, Room, check_found_over_cut, check_real_over_cut,
};
use std::alloc::AllocError;

/// The room of the outputs of a command over a file that is cut off.
const AMPLE: Room = Room {
    out: 16_384,
    report: 16_384,
};

/// Runs the commands of a case in memory over files of which one is cut off, and over the same real files. Both must
/// have the same result, a command that fails writes nothing but its report, and if `fmt` refuses a main file, each
/// command over it reports the same.
pub(crate) fn check_cut<P: Program>(
    workspace: &Workspace<'_, P>,
    runs: &[ParsedRun<'_>],
    cut: &CutFile<'_>,
    differences: &mut Differences,
) -> Result<(), AllocError> {
    let layout = layout_of(workspace, runs, cut)?;
    check_runs_over_cut(workspace, runs, cut, &layout, differences)
}

/// Runs the commands of a case over a file that is cut off, whose layout is this.
fn check_runs_over_cut<P: Program>(
    workspace: &Workspace<'_, P>,
    runs: &[ParsedRun<'_>],
    cut: &CutFile<'_>,
    layout: &Option<Outcome>,
    differences: &mut Differences,
) -> Result<(), AllocError> {
    for parsed_run in runs {
        if differences.is_empty() && parsed_run.run.is_command_line() {
            check_run_over_cut(workspace, parsed_run, cut, layout, differences)?;
        }
    }
    Ok(())
}

/// Runs a command in memory, if it runs there, and over real files if the real file is cut off.
fn check_run_over_cut<P: Program>(
    workspace: &Workspace<'_, P>,
    parsed_run: &ParsedRun<'_>,
    cut: &CutFile<'_>,
    layout: &Option<Outcome>,
    differences: &mut Differences,
) -> Result<(), AllocError> {
    let found = cut_memory(workspace, cut).found_outcome(parsed_run, AMPLE)?;
    check_both(workspace, parsed_run, cut, layout, &found, differences)
}

/// Checks the result of a command in memory, and runs it over real files if the real file is cut off.
fn check_both<P: Program>(
    workspace: &Workspace<'_, P>,
    parsed_run: &ParsedRun<'_>,
    cut: &CutFile<'_>,
    layout: &Option<Outcome>,
    found: &Option<Outcome>,
    differences: &mut Differences,
) -> Result<(), AllocError> {
    check_found_over_cut(parsed_run, cut, layout, found, differences);
    if differences.is_empty() && cut.is_real {
        check_real(workspace, parsed_run, cut, layout, found, differences)?;
    }
    Ok(())
}

/// Runs a command over real files, and checks its result by the one in memory, if it runs there.
fn check_real<P: Program>(
    workspace: &Workspace<'_, P>,
    parsed_run: &ParsedRun<'_>,
    cut: &CutFile<'_>,
    layout: &Option<Outcome>,
    found: &Option<Outcome>,
    differences: &mut Differences,
) -> Result<(), AllocError> {
    let real = workspace.result(parsed_run.run, AMPLE)?;
    check_real_over_cut(parsed_run, cut, layout, found, &real, differences);
    Ok(())
}

/// The files of a case in memory, of which one is cut off.
fn cut_memory<'a, P: Program>(workspace: &Workspace<'a, P>, cut: &CutFile<'a>) -> Memory<'a, P> {
    Memory {
        alloc: workspace.alloc(),
        program: workspace.program,
        view: View {
            case: workspace.case,
            cut: Some((cut.name, cut.bytes)),
        },
        count: workspace.count,
    }
}

/// The result of `fmt` over a file that is cut off, if a command of the case reads it as a main file.
fn layout_of<P: Program>(
    workspace: &Workspace<'_, P>,
    runs: &[ParsedRun<'_>],
    cut: &CutFile<'_>,
) -> Result<Option<Outcome>, AllocError> {
    if !runs.iter().any(|run| run.reads_main(cut.name)) {
        return Ok(None);
    }
    Ok(Some(workspace.memory().layout(cut.bytes, AMPLE)?))
}
