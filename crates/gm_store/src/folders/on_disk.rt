//! The folders of a fallback store on a file system.

use crate::folders::FolderList;
use crate::folders::buffers::Buffers;
use crate::folders::lookup_paths::set_lookup_path;
use gm_name::NoMemory;
use gm_store_parts::{FileName, FileSystem, Looked, opened_result};
use std::alloc::Global;

/// Folders of a file system: the main file's folder, and the proxy folders.
#[derive(Drop)]
pub struct FoldersOnDisk<S: FileSystem> {
    /// The file system.
    pub(crate) system: S,
    /// The allocator for the bytes of files.
    pub(crate) alloc: Global,
    /// The main file's folder.
    pub(crate) main: String,
    /// The proxy folders, in the order of the list.
    pub(crate) proxies: Vec<String>,
}

impl<S: FileSystem> FolderList for FoldersOnDisk<S> {
    ghost use Rattle.std.specs.Prelude.{length};
    ghost use Rattle.gm_store_parts.specs.Openings.{MayLookUp};
    ghost use Rattle.gm_store.specs.FolderLookups.{count_for};
    ghost use Rattle.gm_store.specs.FoldersOnDisk.{main_folder, proxy_folders, system_of};
    ghost use Rattle.gm_store.specs.Placed.{lookup_path_text};

    ghost count_for = { λ places name. count_for (length places.proxies.items) name };

    // The file at the path of the name gives the result, and no other does.
    ghost may_find = { λ places folder name seen. MayLookUp
        (S.may_open (system_of places)
        (lookup_path_text (main_folder places) (proxy_folders places) folder name)) seen };

    fn look(
        &self,
        buffers: &mut Buffers,
        folder: usize,
        name: &FileName,
    ) -> Result<Looked, NoMemory> {
        let place = &mut buffers.path;
        set_lookup_path(place, self.main.as_str(), &self.proxies, folder, name)?;
        let opened = self.system.open(place.as_str());
        opened_result(self.alloc, opened, &mut buffers.piece)
    }
}
