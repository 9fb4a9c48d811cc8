//! Folders that files are looked up in, on a file system or in memory, and the paths of files in them.
//!
//! A list of folders has the trait `FolderList`, so the fallback over them is the same for both kinds.

pub(crate) mod buffers;
pub(crate) mod counted;
pub(crate) mod in_memory;
mod lookup_paths;
pub(crate) mod main_folder;
pub(crate) mod on_disk;
pub(crate) mod relative_path;

ghost use Rattle.std.specs.Prelude.{◌<◌, ℕ, IfOk};

use crate::folders::buffers::Buffers;
use gm_name::NoMemory;
use gm_store_parts::{FileName, Looked};

/// A list of folders that can be looked into.
pub trait FolderList {
    ghost use Rattle.gm_store_parts.specs.Asked.{IsWithinLimit, Name, name_of};
    ghost use Rattle.gm_store_parts.specs.Steps.{Seen, reply_in, result_of};

    /// How many folders there are for a name.
    ghost count_for: { Self → Name → ℕ };

    /// The possible results of a lookup of a name in folder number k, counted from 0. For real folders any result
    /// is possible.
    ghost may_find: { Self → ℕ → Name → Seen → Type 0 };

    /// Looks up a name in folder number `folder`, counted from 0. Only folders of a file system use the buffers.
    ///
    /// A device failure is a result, `Looked::Failed`, since the fallback may continue after it. The only refusal
    /// is `NoMemory`.
    fn look(
        &self,
        buffers: &mut Buffers,
        folder: usize,
        name: &FileName,
    ) -> Result<Looked, NoMemory>
        requires { folder < count_for self.now (name_of name.now) }
        ensures possible { IfOk result (λ looked. may_find self.now folder (name_of name.now) (result_of looked)) }
        ensures within_limit { IfOk result (λ looked. IsWithinLimit (reply_in (result_of looked))) };
}
