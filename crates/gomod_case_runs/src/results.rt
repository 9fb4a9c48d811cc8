//! Whether a command had the result that its case states.

use crate::differences::Differences;
use crate::outcomes::{Outcome, Room};
use crate::parsing::ParsedRun;
use gm_store::{FileName, Files, copy_name};
use gomod_case_files::{Run, tidied};
use std::alloc::{AllocError, Global};

/// How many bytes beyond the expected ones an output takes.
const SPARE: usize = 4_096;

/// The room of the outputs that a command is run with.
pub fn room_for(run: &Run<'_>) -> Room {
    Room {
        out: run.out.len().saturating_add(SPARE),
        report: run.report.len().saturating_add(SPARE),
    }
}

/// The result of a command over real files, and what it read.
#[derive(Drop)]
pub struct Real {
    /// What it wrote, and its status.
    pub outcome: Outcome,
    /// The names of the files that it opened, in order.
    pub opened: Vec<String>,
    /// Whether it took standard input.
    pub takes_input: bool,
}

/// Whether a command had the result that the case states.
pub fn is_wanted(run: &Run<'_>, outcome: &Outcome) -> bool {
    outcome.out.bytes() == run.out.as_slice()
        && outcome.report.bytes() == run.report.as_slice()
        && outcome.status == run.wanted_status()
}

/// Reports the result that a command had, and the one that it should have.
pub fn report_difference(run: &Run<'_>, outcome: &Outcome, differences: &mut Differences) {
    differences.outcome(outcome);
    differences.wanted(run);
}

/// Checks what a call gave.
pub fn check_text(run: &Run<'_>, text: &str, differences: &mut Differences) {
    if text.as_bytes() != run.out.as_slice() {
        differences.command(run, "as a call");
        differences.line("  got:");
        differences.text(">", text.as_bytes());
        differences.wanted(run);
    }
}

/// Checks the result of a command line over real files.
pub fn check_result(
    alloc: Global,
    run: &Run<'_>,
    real: &Real,
    differences: &mut Differences,
) -> Result<(), AllocError> {
    if !is_wanted(run, &real.outcome) {
        differences.command(run, "over real files");
        report_difference(run, &real.outcome, differences);
        return Ok(());
    }
    if !opens_right(alloc, run, real.opened.as_slice())? {
        differences.command(run, "the files that it opens");
        differences.line("  got:");
        differences.opened(real.opened.as_slice());
    }
    Ok(())
}

/// Whether a command opened the files that the case lists, or, if it lists none, no file twice.
fn opens_right(alloc: Global, run: &Run<'_>, opened: &[String]) -> Result<bool, AllocError> {
    match &run.opened {
        Some(names) => are_opened(alloc, opened, names.as_slice()),
        None => is_each_opened_once(alloc, opened),
    }
}

/// Whether two names are of the same place.
fn is_same_place(alloc: Global, one: &str, other: &str) -> Result<bool, AllocError> {
    let one = tidied(alloc, one)?;
    let other = tidied(alloc, other)?;
    Ok(one == other)
}

/// Whether exactly these files were opened, in this order.
fn are_opened(alloc: Global, opened: &[String], wanted: &[&str]) -> Result<bool, AllocError> {
    if opened.len() != wanted.len() {
        return Ok(false);
    }
    for (one, other) in opened.iter().zip(wanted) {
        if !is_same_place(alloc, one.as_str(), other)? {
            return Ok(false);
        }
    }
    Ok(true)
}

/// Whether no file was opened twice.
fn is_each_opened_once(alloc: Global, opened: &[String]) -> Result<bool, AllocError> {
    let mut names = Vec::new(alloc);
    for name in opened {
        names.push(name.as_str())?;
    }
    names.sort_unstable();
    names.dedup();
    Ok(names.len() == opened.len())
}

/// The result of a command line over a store in memory, and the files that the store was asked for, in order.
#[derive(Drop)]
pub struct InMemory {
    /// What it wrote, and its status.
    pub outcome: Outcome,
    /// The files that the store was asked for.
    pub asked: Vec<FileName>,
}

/// The files that a store was asked for.
pub fn asked_of<F: Files>(alloc: Global, files: &F) -> Result<Vec<FileName>, AllocError> {
    let mut asked = Vec::new(alloc);
    for i in 0..files.count() {
        push_copy(alloc, &mut asked, files.name(i))?;
    }
    Ok(asked)
}

/// Adds a copy of a name.
fn push_copy(alloc: Global, names: &mut Vec<FileName>, name: &FileName) -> Result<(), AllocError> {
    Ok(names.push(copy_name(alloc, name)?)?)
}

/// Checks the result of a command line over a store in memory, if it can be run there.
pub fn check_found(
    parsed_run: &ParsedRun<'_>,
    found: &Option<InMemory>,
    differences: &mut Differences,
) {
    let run = parsed_run.run;
    let is_needless = is_needless(parsed_run, found);
    if run.is_over_files_only && is_needless {
        differences.command(run, "in memory");
        differences.line("  its line % files is not needed");
    }
    if !run.is_over_files_only && !is_needless {
        differences.command(run, "in memory");
        report_in_memory(run, found, differences);
    }
}

/// Whether a command has the stated result in memory, or is a usage error or a request for help.
fn is_needless(parsed_run: &ParsedRun<'_>, found: &Option<InMemory>) -> bool {
    match found {
        Some(found) => is_wanted(parsed_run.run, &found.outcome),
        None => parsed_run.parsed.is_none(),
    }
}

/// Reports that a command has another result in memory, or none.
fn report_in_memory(run: &Run<'_>, found: &Option<InMemory>, differences: &mut Differences) {
    match found {
        Some(found) => report_difference(run, &found.outcome, differences),
        None => differences.line("  has no form in memory: say so by a line % files"),
    }
}
