//! Commands over an output that is full, a file that can't be opened, a store that fails, or a file that is cut off.

use crate::cutting::check_cut;
use crate::outputs::sweep_outputs;
use crate::program::Program;
use crate::refusals::sweep_asks;
use crate::workspace::Workspace;
use gomod_case_files::{CaseFile, Content, STDIN};
use gomod_case_runs::{CutFile, Differences, KnownInput, ParsedRun, begins_line, is_cut, is_short};
use std::alloc::AllocError;
use std::{fs, io};

/// Runs the commands of a case, all of which pass, over outputs, files and stores that fail and over files that are cut
/// off, and reports the first thing that is wrong.
pub(crate) fn sweep<P: Program>(
    workspace: &Workspace<'_, P>,
    runs: &[ParsedRun<'_>],
    differences: &mut Differences,
) -> io::Result<()> {
    sweep_runs(workspace, runs, differences)?;
    sweep_files(workspace, runs, differences)
}

/// Runs each command of a case over outputs, files and stores that fail.
fn sweep_runs<P: Program>(
    workspace: &Workspace<'_, P>,
    runs: &[ParsedRun<'_>],
    differences: &mut Differences,
) -> Result<(), AllocError> {
    for parsed_run in runs {
        if differences.is_empty() && parsed_run.run.is_command_line() {
            sweep_run(workspace, parsed_run, differences)?;
        }
    }
    Ok(())
}

/// Runs a command over outputs, files and a store that fail.
fn sweep_run<P: Program>(
    workspace: &Workspace<'_, P>,
    parsed_run: &ParsedRun<'_>,
    differences: &mut Differences,
) -> Result<(), AllocError> {
    sweep_outputs(workspace, parsed_run, differences)?;
    if !parsed_run.run.is_over_files_only && differences.is_empty() {
        if let Some(parsed) = &parsed_run.parsed {
            sweep_asks(workspace, parsed_run.run, parsed, differences)?;
        }
    }
    Ok(())
}

/// Runs the commands of a case over each of its files, cut off.
fn sweep_files<P: Program>(
    workspace: &Workspace<'_, P>,
    runs: &[ParsedRun<'_>],
    differences: &mut Differences,
) -> io::Result<()> {
    for file in &workspace.case.files {
        if differences.is_empty() && file.mode.is_none() {
            sweep_file(workspace, runs, file, differences)?;
        }
    }
    Ok(())
}

/// Runs the commands of a case over one of its files, cut off. The real file is whole again at the end.
fn sweep_file<P: Program>(
    workspace: &Workspace<'_, P>,
    runs: &[ParsedRun<'_>],
    file: &CaseFile,
    differences: &mut Differences,
) -> io::Result<()> {
    if let Content::Bytes(bytes) = &file.content {
        let name = file.name.as_str();
        sweep_cuts(workspace, runs, name, bytes.as_slice(), differences)?;
        write_file(workspace, name, bytes.as_slice())?;
    }
    Ok(())
}

/// Runs the commands of a case over one of its files, cut off: in memory wherever it is cut, and over real files
/// if a line ends there, or a command runs over real files alone.
fn sweep_cuts<P: Program>(
    workspace: &Workspace<'_, P>,
    runs: &[ParsedRun<'_>],
    name: &str,
    bytes: &[u8],
    differences: &mut Differences,
) -> io::Result<()> {
    let is_cut_everywhere = workspace.case.is_cut_everywhere
        || is_short(bytes.len().saturating_mul(runs.len()));
    let needs_files = runs.iter().any(|run| run.run.is_over_files_only);
    for end in 0..bytes.len() {
        if differences.is_empty() && is_cut(bytes, end, is_cut_everywhere) {
            let cut = CutFile {
                name,
                bytes: &bytes[..end],
                is_real: needs_files || begins_line(bytes, end),
            };
            sweep_cut(workspace, runs, &cut, differences)?;
        }
    }
    Ok(())
}

/// Runs the commands of a case over a file that is cut off.
fn sweep_cut<P: Program>(
    workspace: &Workspace<'_, P>,
    runs: &[ParsedRun<'_>],
    cut: &CutFile<'_>,
    differences: &mut Differences,
) -> io::Result<()> {
    if cut.is_real {
        write_file(workspace, cut.name, cut.bytes)?;
    }
    if cut.name != STDIN {
        return Ok(check_cut(workspace, runs, cut, differences)?);
    }
    let workspace = workspace.with_input(KnownInput::of(cut.bytes));
    Ok(check_cut(&workspace, runs, cut, differences)?)
}

/// Writes a file of a case anew, unless it is standard input, which is in no folder.
fn write_file<P: Program>(
    workspace: &Workspace<'_, P>,
    name: &str,
    bytes: &[u8],
) -> io::Result<()> {
    if name == STDIN {
        return Ok(());
    }
    let folder = workspace.folder;
    let place = format!(in workspace.alloc(); "{folder}/{name}")?;
    write_anew(workspace.system, place.as_str(), bytes)
}

/// Writes a file anew. Unlike a file that is overwritten, a new one isn't flushed to the disk.
fn write_anew(system: HostRuntime, place: &str, bytes: &[u8]) -> io::Result<()> {
    fs::remove_file(&system, place)?;
    fs::write(&system, place, bytes)
}
