//! Whether the commands of a case have the results that it states.

use crate::program::Program;
use crate::sweeping::sweep;
use crate::workspace::Workspace;
use gomod_case_calls::call;
use gomod_case_files::{Case, Run, STDIN, View, lay_files, make_folder, texts_of};
use gomod_case_runs::{
    Count, Differences, KnownInput, ParsedRun, check_found, check_result, check_text, is_wanted,
    parsed_runs, report_difference, room_for,
};
use std::alloc::AllocError;
use std::{fs, io};

/// Checks the commands of a case, reports how their results differ from those that the case states, and counts the
/// runs.
pub(crate) fn check_case<P: Program>(
    rt: &HostRuntime,
    program: &P,
    case: &Case<'_>,
    count: &Count,
    differences: &mut Differences,
) -> io::Result<()> {
    let root = make_folder(rt)?;
    let root = root.as_str();
    let checked = check_below(rt, program, root, case, count, differences);
    let removed = fs::remove_dir_all(rt, root);
    checked?;
    removed
}

/// Checks the commands of a case in a folder below this one.
fn check_below<P: Program>(
    rt: &HostRuntime,
    program: &P,
    root: &str,
    case: &Case<'_>,
    count: &Count,
    differences: &mut Differences,
) -> io::Result<()> {
    let folder = format!(in rt.alloc(); "{root}/main")?;
    let folder = folder.as_str();
    if !case.is_in_memory_alone {
        lay_files(rt, folder, case)?;
    }
    let workspace = Workspace {
        system: *rt,
        program,
        folder,
        case,
        input: KnownInput::of(View::whole(case).named(STDIN).unwrap_or(b"")),
        count,
    };
    check_in(&workspace, differences)
}

/// Checks the commands of a case in its workspace.
fn check_in<P: Program>(
    workspace: &Workspace<'_, P>,
    differences: &mut Differences,
) -> io::Result<()> {
    let runs = parsed_runs(workspace.alloc(), workspace.case)?;
    check_parsed(workspace, runs.as_slice(), differences)
}

/// Checks the commands of a case, and if all pass also over what fails and what is cut off.
fn check_parsed<P: Program>(
    workspace: &Workspace<'_, P>,
    runs: &[ParsedRun<'_>],
    differences: &mut Differences,
) -> io::Result<()> {
    check_runs(workspace, runs, differences)?;
    if differences.is_empty() && !workspace.case.is_large {
        sweep(workspace, runs, differences)?;
    }
    Ok(())
}

/// Checks the commands of a case.
fn check_runs<P: Program>(
    workspace: &Workspace<'_, P>,
    runs: &[ParsedRun<'_>],
    differences: &mut Differences,
) -> Result<(), AllocError> {
    for run in runs {
        check_run(workspace, run, differences)?;
    }
    Ok(())
}

/// Checks a command of a case.
fn check_run<P: Program>(
    workspace: &Workspace<'_, P>,
    parsed_run: &ParsedRun<'_>,
    differences: &mut Differences,
) -> Result<(), AllocError> {
    let run = parsed_run.run;
    if !run.is_command_line() {
        return check_call(workspace, run, differences);
    }
    if !workspace.case.is_in_memory_alone || parsed_run.parsed.is_none() {
        check_real(workspace, parsed_run, differences)?;
    }
    check_in_memory(workspace, parsed_run, differences)
}

/// What a call of a library function gives, or none if there is no such call.
fn text_of_call<P: Program>(
    workspace: &Workspace<'_, P>,
    run: &Run<'_>,
) -> Result<Option<String>, AllocError> {
    let Some(words) = texts_of(workspace.alloc(), run.words.as_slice())? else {
        return Ok(None);
    };
    workspace.count.add();
    call(
        workspace.alloc(),
        &View::whole(workspace.case),
        words.as_slice(),
    )
}

/// Checks a call of a library function.
fn check_call<P: Program>(
    workspace: &Workspace<'_, P>,
    run: &Run<'_>,
    differences: &mut Differences,
) -> Result<(), AllocError> {
    match text_of_call(workspace, run)? {
        Some(text) => check_text(run, text.as_str(), differences),
        None => {
            differences.command(run, "as a call");
            differences.line("  there is no such call, or a file that it names is not there");
        }
    }
    Ok(())
}

/// Checks a command line over real files. One that takes standard input runs once more, over short reads.
fn check_real<P: Program>(
    workspace: &Workspace<'_, P>,
    parsed_run: &ParsedRun<'_>,
    differences: &mut Differences,
) -> Result<(), AllocError> {
    let run = parsed_run.run;
    let real = workspace.outcome(run, room_for(run))?;
    check_result(workspace.alloc(), run, &real, differences)?;
    if real.takes_input != parsed_run.takes_input() {
        differences.command(run, "over real files");
        differences.line(if real.takes_input {
            "  it reads standard input, and may not"
        } else {
            "  it does not read standard input"
        });
    }
    if real.takes_input {
        check_short_reads(workspace, run, differences)?;
    }
    Ok(())
}

/// Checks the result of a command line over real files if a read of standard input gives only a few bytes.
fn check_short_reads<P: Program>(
    workspace: &Workspace<'_, P>,
    run: &Run<'_>,
    differences: &mut Differences,
) -> Result<(), AllocError> {
    let workspace = workspace.with_input(workspace.input.in_short_reads());
    let outcome = workspace.result(run, room_for(run))?;
    if !is_wanted(run, &outcome) {
        differences.command(run, "over short reads of standard input");
        report_difference(run, &outcome, differences);
    }
    Ok(())
}

/// Checks a command line over a store in memory. If the result differs there, or the command can't be run in memory,
/// the case has to say so.
fn check_in_memory<P: Program>(
    workspace: &Workspace<'_, P>,
    parsed_run: &ParsedRun<'_>,
    differences: &mut Differences,
) -> Result<(), AllocError> {
    let found = workspace
        .memory()
        .found(parsed_run, room_for(parsed_run.run))?;
    check_found(parsed_run, &found, differences);
    Ok(())
}
