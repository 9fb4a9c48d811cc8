//! The folders of a fallback store in memory.
//!
//! They answer like folders of a file system, so a test in memory tells how the real fallback behaves.

use crate::folders::FolderList;
use crate::folders::buffers::Buffers;
use gm_name::NoMemory;
use gm_store_parts::{FileName, Looked, MemoryFolder};

/// Folders in memory: the proxy folders, and the folder beside the main file.
#[derive(Drop)]
pub struct FoldersInMemory {
    /// The proxy folders, in order. They hold the files of modules.
    pub proxies: Vec<MemoryFolder>,
    /// The folder beside the main file. It holds the `go.mod` files of local folders, by the folders' texts.
    pub beside: MemoryFolder,
}

impl FolderList for FoldersInMemory {
    ghost use Rattle.std.specs.Prelude.{◌≡◌, Some, length, slice_get};
    ghost use Rattle.gm_store.specs.FolderLookups.{lookup_results};

    ghost count_for = { λ folders name. length (lookup_results folders name) };

    ghost may_find = { λ folders k name seen. slice_get (lookup_results folders name) k ≡ Some seen };

    fn look(
        &self,
        _buffers: &mut Buffers,
        folder: usize,
        name: &FileName,
    ) -> Result<Looked, NoMemory> {
        match name {
            FileName::Folder(_) => self.beside.look(name),
            _ => self.proxies[folder].look(name),
        }
    }
}
