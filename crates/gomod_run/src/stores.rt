//! The store of a command: proxy folders on disk, or one in memory.

ghost use Rattle.std.specs.Prelude.{◌≡◌, ℕ, IfErr, IfOk, None, Option, Some, [], codes};
ghost use Rattle.std.specs.Global.{Vec};
ghost use Rattle.std.specs.String.{string_bytes};
ghost use Rattle.gm_store_parts.specs.Asked.{Name, Reply};
ghost use Rattle.gm_store_parts.specs.Memory.{held_at, pairs_of};
ghost use Rattle.gm_store_parts.specs.Proxies.{folders_in, marks_in};
ghost use Rattle.gm_store.specs.DiskAnswers.{MayAnswer};
ghost use Rattle.gm_store.specs.Views.{asked_by, refused_by};
ghost use Rattle.gomod_texts.specs.Outcome.{OrNoMemory, report_outcome};
ghost use Rattle.gomod_run.specs.Program.{FileGives, IsFolderFor, IsInput, IsUnread, file_in_memory, list_input, versions_path};

use crate::inputs::{STANDARD_INPUT, read_named, versions_path};
use gm_name::{ModPath, NoMemory};
use gm_store::{
    Asks, FileName, FileSystem, FolderReader, MemoryFiles, ProxyList, StandardInput, folder_of,
};
use gomod_texts::Report;
use gomod_words::Command;
use std::alloc::Global;

/// The folder that local folders of a store on disk are relative to: that of the main file with this name, or the
/// current one for `versions`, which has no main file.
pub(crate) fn store_folder(alloc: Global, command: &Command, main: &str) -> Result<String, NoMemory>
    ensures { IfOk result (λ folder. IsFolderFor (versions_path command.now) main.now (string_bytes folder)) }
{
    match versions_path(command) {
        Some(_) => current_folder(alloc),
        None => folder_of(alloc, main),
    }
}

/// The current folder.
fn current_folder(alloc: Global) -> Result<String, NoMemory>
    ensures { IfOk result (λ folder. string_bytes folder ≡ codes ".") }
{
    let folder = String::from_str(alloc, ".")?;
    Ok(folder)
}

/// A store over proxy folders and the folder of the main file. It has not been asked yet.
pub(crate) fn folders_of<S: FileSystem + Copy + Drop + Alloc<A = Global>>(
    rt: &S,
    main: String,
    folders: ProxyList,
) -> FolderReader<S>
    ensures asked { asked_by result ≡ [] }
    ensures refused { refused_by result ≡ [] }
    ensures answers { (name : Name) (outcome : Option Reply)
        → ⟦<FolderReader<S> as Asks>⟧.may_answer result name outcome
        → MayAnswer (S.may_open rt.now) (string_bytes main) (folders_in folders) (marks_in folders) name outcome }
{
    FolderReader::new(*rt, rt.alloc(), main, folders)
}

/// A store that has the list of a module and nothing else.
fn store_of(alloc: Global, path: &ModPath, list: Vec<u8>) -> Result<MemoryFiles, NoMemory>
    ensures asked { IfOk result (λ files. pairs_of files ≡ []) }
    ensures held { IfOk result (λ files. (name : Name)
        → held_at files name ≡ file_in_memory (Some path.now) (Some list) name) }
{
    let name = FileName::List(path.copy(alloc)?);
    let mut files = MemoryFiles::new(alloc);
    files.put(name, list)?;
    Ok(files)
}

/// The store of a command without proxy folders: it has standard input as the list of the module for `versions`, and
/// nothing for another command.
pub(crate) fn memory_of<S: StandardInput + FileSystem + Alloc<A = Global>>(
    rt: &S,
    command: &Command,
) -> Result<MemoryFiles, Report<'static>>
    ensures asked { IfOk result (λ files. pairs_of files ≡ []) }
    ensures held { IfOk result (λ files. (list : Option (Vec ℕ))
        × IsInput (FileGives (S.may_open rt.now) (S.may_take rt.now)) (list_input command.now None) list
        × ((name : Name) → held_at files name ≡ file_in_memory (versions_path command.now) list name)) }
    ensures unread { IfErr result (λ told. OrNoMemory (IsUnread
        (FileGives (S.may_open rt.now) (S.may_take rt.now)) (list_input command.now None)) (report_outcome told)) }
{
    match versions_path(command) {
        Some(path) => {
            let list = read_named(rt, STANDARD_INPUT)?;
            Ok(store_of(rt.alloc(), path, list)?)
        }
        None => Ok(MemoryFiles::new(rt.alloc())),
    }
}
