//! One folder in memory, which stands for a proxy folder in tests. A file in it may be unreadable.

ghost use Rattle.std.specs.Prelude.{◌≡◌, None, Some, OnOk, OnErr, IfOk, if◌then◌else◌};
ghost use Rattle.gm_store_parts.specs.Asked.{IsWithinLimit, Name, name_of, same_name};

use crate::files::FileName;
use crate::files::memory::copy_bytes;
use crate::looked::Looked;
use crate::reading::LIMIT;
use gm_name::NoMemory;
use std::alloc::Global;
use std::collections::BTreeMap;

/// A file of a folder in memory.
#[derive(Drop)]
pub enum Held {
    /// A readable file with these bytes. They may be longer than `LIMIT`.
    Content(Vec<u8>),
    /// An unreadable file: each lookup of it is a device failure.
    Broken,
}

/// A folder in memory: a map from names to files.
#[derive(Drop)]
pub struct MemoryFolder {
    /// The files by name.
    held: BTreeMap<FileName, Held>,
}

impl MemoryFolder {
    ghost use Rattle.gm_store_parts.specs.FoldersInMemory.{file_at, result_at};
    ghost use Rattle.gm_store_parts.specs.Steps.{reply_in, result_of};

    /// An empty folder.
    pub fn new(alloc: Global) -> MemoryFolder
        ensures { (name : Name) → file_at result name ≡ None }
    {
        MemoryFolder {
            held: BTreeMap::new(alloc),
        }
    }

    /// Puts a file into the folder. It replaces a file of the same name.
    ///
    /// The only refusal is `NoMemory`, which leaves the folder unchanged.
    pub fn put(&mut self, name: FileName, file: Held) -> Result<(), NoMemory>
        ensures held { OnOk result ((other : Name) → file_at self.new other
            ≡ (if same_name other (name_of name) then Some file else file_at self.old other)) }
        ensures err { OnErr result ((other : Name) → file_at self.new other ≡ file_at self.old other) }
    {
        self.held.insert(name, file)?;
        Ok(())
    }

    /// Looks up a name. A file's bytes are copied; the only refusal is `NoMemory`.
    pub fn look(&self, name: &FileName) -> Result<Looked, NoMemory>
        ensures contents { IfOk result (λ looked. result_of looked ≡ result_at self.now (name_of name.now)) }
        ensures within_limit { IfOk result (λ looked. IsWithinLimit (reply_in (result_of looked))) }
    {
        match self.held.get(name) {
            None => Ok(Looked::Absent),
            Some(Held::Broken) => Ok(Looked::Failed),
            Some(Held::Content(content)) => {
                if content.len() > LIMIT {
                    return Ok(Looked::TooLong);
                }
                Ok(Looked::Found(copy_bytes(content)?))
            }
        }
    }
}
