//! A law of several proxy folders.

ghost use Rattle.std.specs.Prelude.{Option};
ghost use Rattle.gm_store_parts.specs.Asked.{Name, Reply};
ghost use Rattle.gm_store.specs.Views.{folders_under, marks_between};
ghost use Rattle.gomod_laws.specs.FolderLaws.{FolderMayAnswer, MoreFoldersChangeNothing};

use gm_store::{Asks, MemoryFolders};

/// One more folder changes nothing that was found. If a command prints over folders in memory, it prints the same with
/// one more proxy folder after the last, separated from it by `,` or `|`, and it asks for the same files. The folders
/// before it and their marks stay as they are. A folder put before others, or between them, can change what is printed.
pub fn more_folders_change_nothing()
    ensures { MoreFoldersChangeNothing }
{}

/// What may come of asking a store over folders in memory is what its folders may give, in the words of the law above.
/// So it speaks of each run of a command over such a store.
pub fn folders_in_memory_may_answer(store: &MemoryFolders)
    ensures { (name : Name) (outcome : Option Reply) → ⟦<MemoryFolders as Asks>⟧.may_answer store.now name outcome
        → FolderMayAnswer (folders_under store.now) (marks_between store.now) name outcome }
{}
