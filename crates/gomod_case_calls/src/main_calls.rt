//! Calls about a main file: what it says, a version in it, what is selected of its requirements, and an operation on
//! it.

ghost use Rattle.std.specs.Prelude.{IfOk};
ghost use Rattle.gm_graph_select.specs.Order.{IsAscending};
ghost use Rattle.gm_name.specs.ModuleVersion.{pair_cmp};

use crate::call_faults::CallFault;
use crate::file_calls::{push_found, push_main};
use crate::name_calls::{pair, push_test};
use gm_file::MainFile;
use gm_file_edit::{Apply, Op};
use gm_graph_select::{selected, sorted_vertices};
use gm_name::{ModVer, NoMemory};
use std::alloc::Global;

/// What is asked of a main file.
#[derive(Clone, Copy)]
enum Question<'a> {
    /// What it says.
    All,
    /// What replaces a version.
    Replacement(&'a ModVer),
    /// Whether it excludes a version.
    Excluded(&'a ModVer),
    /// Which of its requirements are selected.
    Selected,
    /// Its layout after an operation, which is applied to the file and not to its lines alone, as the program does.
    Edited(&'a Op),
}

/// Appends what a file answers as a main file.
fn ask(
    alloc: Global,
    text: &mut String,
    bytes: &[u8],
    question: Question<'_>,
) -> Result<(), CallFault> {
    // what owns a main file is proved through all its fields, so this alone does
    let mut file = MainFile::read_bytes(alloc, bytes)?;
    push_answer(alloc, text, &mut file, question)
}

/// Appends what a main file answers.
fn push_answer(
    alloc: Global,
    text: &mut String,
    file: &mut MainFile<'_>,
    question: Question<'_>,
) -> Result<(), CallFault> {
    match question {
        Question::All => Ok(push_main(text, file)?),
        Question::Replacement(pair) => Ok(push_found(text, file.replacement(pair))?),
        Question::Excluded(pair) => push_test(text, file.excluded(pair)),
        Question::Selected => push_selected(alloc, text, file),
        Question::Edited(op) => push_layout_after(text, file, op),
    }
}

/// Appends the layout of a main file after an operation.
fn push_layout_after(text: &mut String, file: &mut MainFile<'_>, op: &Op) -> Result<(), CallFault> {
    file.apply(op)?;
    let layout = file.doc().format()?;
    Ok(text.push_str(layout.as_str())?)
}

/// These modules in ascending order, each once.
fn in_order(alloc: Global, modules: &[ModVer]) -> Result<Vec<ModVer>, NoMemory>
    ensures { IfOk result (λ sorted. IsAscending pair_cmp sorted.items) }
{
    let mut copies = Vec::new(alloc);
    for module in modules {
        copies.push(module.copy(alloc)?)?;
    }
    Ok(sorted_vertices(copies))
}

/// Appends the modules that are selected if edges lead to those that a main file requires, and to no others.
fn push_selected(alloc: Global, text: &mut String, file: &MainFile<'_>) -> Result<(), CallFault> {
    let ends = in_order(alloc, file.requirements())?;
    for module in selected(file.module(), &ends) {
        writeln!(text, "{module}")?;
    }
    Ok(())
}

/// Appends which requirements of a main file are selected.
pub(crate) fn select(alloc: Global, text: &mut String, bytes: &[u8]) -> Result<(), CallFault> {
    ask(alloc, text, bytes, Question::Selected)
}

/// Appends what a file says as a main file.
pub(crate) fn strict(alloc: Global, text: &mut String, bytes: &[u8]) -> Result<(), CallFault> {
    ask(alloc, text, bytes, Question::All)
}

/// Appends the replacement of a version in a main file.
pub(crate) fn replacement(
    alloc: Global,
    text: &mut String,
    bytes: &[u8],
    version: (&str, &str),
) -> Result<(), CallFault> {
    let version = pair(alloc, version)?;
    ask(alloc, text, bytes, Question::Replacement(&version))
}

/// Appends whether a main file excludes a version.
pub(crate) fn excluded(
    alloc: Global,
    text: &mut String,
    bytes: &[u8],
    version: (&str, &str),
) -> Result<(), CallFault> {
    let version = pair(alloc, version)?;
    ask(alloc, text, bytes, Question::Excluded(&version))
}

/// Appends the layout of a main file after an operation.
pub(crate) fn apply(
    alloc: Global,
    text: &mut String,
    bytes: &[u8],
    operation: &str,
) -> Result<(), CallFault> {
    let op = Op::parse(alloc, operation)?;
    ask(alloc, text, bytes, Question::Edited(&op))
}
