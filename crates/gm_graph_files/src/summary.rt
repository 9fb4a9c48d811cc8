//! What the cache keeps of a file that was read.
//!
//! The requirements of all files are in one list of modules, since files name the same modules again and again. A
//! summary says where those of its file are. What the main file excludes is taken out of the list before.

ghost use Rattle.std.specs.Prelude.{◌≡◌, ◌≤◌, List, IfOk, OnOk, Some, drop, length};
ghost use Rattle.std.specs.List.{list_any};
ghost use Rattle.gm_name.specs.ModuleVersion.{ModuleVersion};
ghost use Rattle.gm_name_table.specs.Listed.{Appends, modules_of};
ghost use Rattle.gm_file.specs.Listed.{with_requirements};
ghost use Rattle.gm_file.specs.Main.{is_excluded, without_excluded};
ghost use Rattle.gm_graph_files.specs.Turns.{leads_on};
ghost use Rattle.gm_graph_files.specs.Summaries.{own_span};
ghost use Rattle.gm_graph_files.specs.KeptFiles.{Grows, front_of, nowhere, same_list, span_found};

use crate::class::Class;
use crate::depth::Depth;
use gm_file::{ListedFile, MainModule};
use gm_name::{ModVer, NoMemory};
use gm_name_table::{ModuleList, Modules};
use std::alloc::Global;

/// Where some modules are in the list of modules: from one place to another.
#[derive(Clone, Copy)]
pub struct ListSpan {
    /// The place of the first one.
    pub start: usize,
    /// The place after the last one.
    pub end: usize,
}

impl ListSpan {
    /// The span of no modules.
    pub fn nowhere() -> ListSpan
        ensures { result ≡ nowhere }
    {
        ListSpan { start: 0, end: 0 }
    }
}

/// Where the requirements of a file are, without the excluded ones.
#[derive(Clone, Copy)]
pub struct KeptList {
    /// Where they are in the list of modules.
    pub span: ListSpan,
    /// The place of the earlier file whose list this is, if it is that of one.
    pub same_as: Option<u32>,
}

/// What the cache keeps of a valid file.
#[derive(Drop)]
pub struct Summary {
    /// What the file says, other than its requirements.
    pub file: ListedFile,
    /// Its requirements.
    pub list: KeptList,
}

/// What the cache keeps of a file.
#[derive(Drop)]
pub enum Kept {
    /// The file is valid, and this is its summary.
    Valid(Summary),
    /// The file has this fault.
    Faulty(Class),
}

/// Whether one of these is excluded.
fn has_excluded(main: &MainModule, mut list: Modules<'_>) -> bool
    ensures { result ≡ list_any (is_excluded main.now) list.entry }
{
    list.any(|x| main.excluded(x))
}

/// Copies of those that are not excluded.
fn copy_kept(alloc: Global, main: &MainModule, list: Modules<'_>) -> Result<Vec<ModVer>, NoMemory>
    ensures { IfOk result (λ kept. kept.items ≡ without_excluded main.now list.entry) }
{
    let mut kept = Vec::new(alloc);
    for x in list {
        if !main.excluded(x) {
            kept.push(x.copy(alloc)?)?;
        }
    }
    Ok(kept)
}

/// Appends modules to the list. The only refusal is `NoMemory`, after which the list may have some of them.
fn append(modules: &mut ModuleList, more: &[ModVer]) -> Result<(), NoMemory>
    ensures ok { OnOk result (Appends modules.old modules.new more.now) }
    ensures grows { Grows modules.old modules.new }
{
    for x in more {
        modules.push(x)?;
    }
    Ok(())
}

/// Takes the excluded modules out of the list from this place on. The only refusal is `NoMemory`, after which the list
/// may lack others, too.
pub(crate) fn leave_out(
    alloc: Global,
    modules: &mut ModuleList,
    main: &MainModule,
    start: usize,
) -> Result<(), NoMemory>
    requires { start ≤ length modules.old.numbers }
    ensures ok { OnOk result (Appends (front_of start modules.old) modules.new
        (without_excluded main.now (drop start (modules_of modules.old)))) }
    ensures grows { Grows (front_of start modules.old) modules.new }
{
    let end = modules.len();
    if !has_excluded(main, modules.part(start, end)) {
        return Ok(());
    }
    let others = copy_kept(alloc, main, modules.part(start, end))?;
    modules.truncate(start);
    append(modules, &others)
}

impl Summary {
    /// Whether a visit to this depth also opens what the file requires: always at full depth, at the top only if the
    /// file is unpruned, that is, if the first two numbers of its go version are below 1.17 (Go Modules Reference,
    /// "Module graph pruning").
    pub fn leads_on(&self, depth: Depth) -> bool
        ensures { (requirements : List ModuleVersion)
            → result ≡ leads_on (with_requirements self.now.file requirements) depth }
    {
        match depth {
            Depth::Top => !self.file.is_pruned(),
            Depth::Deep => true,
        }
    }
}

impl Kept {
    /// Where the requirements without the excluded ones are: nowhere if the file has a fault.
    pub fn span(&self) -> ListSpan
        ensures { result ≡ span_found (Some self.now) }
    {
        match self {
            Kept::Valid(summary) => summary.list.span,
            Kept::Faulty(_) => ListSpan::nowhere(),
        }
    }

    /// Where the own list of the file is: a file that shares the list of an earlier one has none.
    pub fn own_span(&self) -> Option<ListSpan>
        ensures { result ≡ own_span self.now }
    {
        match self {
            Kept::Valid(summary) if summary.list.same_as.is_none() => Some(summary.list.span),
            _ => None,
        }
    }

    /// The place of the earlier file whose list it shares, if it shares one.
    pub fn same_list(&self) -> Option<u32>
        ensures { result ≡ same_list self.now }
    {
        match self {
            Kept::Valid(summary) => summary.list.same_as,
            Kept::Faulty(_) => None,
        }
    }
}
