//! Folders whose lookups are counted.
//!
//! A lookup is counted by the call that makes it, so no caller can leave one out, nor its failure.

ghost use Rattle.std.specs.Prelude.{◌≡◌, ◌∷◌, []};
ghost use Rattle.std.specs.List.{count_by};
ghost use Rattle.gm_store_parts.specs.Steps.{counted_up, has_failed, result_of};

use crate::folders::FolderList;
use crate::folders::buffers::Buffers;
use gm_name::NoMemory;
use gm_store_parts::{FileName, Looked};

/// Folders, and how often they were looked into. Counts saturate.
#[derive(Drop)]
pub struct CountedFolders<F> {
    /// The folders.
    folders: F,
    /// How often one of them was looked into.
    lookups: u64,
    /// How often the device failed in that.
    failures: u64,
}

impl<F: FolderList> CountedFolders<F> {
    ghost use Rattle.std.specs.Prelude.{◌<◌, IfOk, OnErr};
    ghost use Rattle.gm_store_parts.specs.Asked.{IsWithinLimit, name_of};
    ghost use Rattle.gm_store_parts.specs.Steps.{AreCounted, reply_in};
    ghost use Rattle.gm_store.specs.Counted.{counts_in, inner_folders};

    /// Folders that were not looked into yet.
    pub(crate) fn new(folders: F) -> CountedFolders<F>
        ensures folders { inner_folders result ≡ folders }
        ensures lookups { (counts_in result).lookups ≡ 0 }
        ensures failures { (counts_in result).failures ≡ 0 }
    {
        CountedFolders {
            folders,
            lookups: 0,
            failures: 0,
        }
    }

    /// Looks up a name in folder number `folder`, counted from 0, and counts that.
    ///
    /// The only refusal is `NoMemory`, and then the lookup is not counted.
    pub(crate) fn look(
        &mut self,
        buffers: &mut Buffers,
        folder: usize,
        name: &FileName,
    ) -> Result<Looked, NoMemory>
        requires { folder < F.count_for (inner_folders self.old) (name_of name.now) }
        ensures folders { inner_folders self.new ≡ inner_folders self.old }
        ensures possible { IfOk result (λ looked. F.may_find (inner_folders self.old) folder (name_of name.now)
            (result_of looked)) }
        ensures within_limit { IfOk result (λ looked. IsWithinLimit (reply_in (result_of looked))) }
        ensures counted { IfOk result (λ looked. AreCounted (result_of looked ∷ [])
            (counts_in self.old) (counts_in self.new)) }
        ensures no_memory { OnErr result (counts_in self.new ≡ counts_in self.old) }
    {
        let looked = self.folders.look(buffers, folder, name)?;
        self.lookups = self.lookups.saturating_add(1);
        self.failures = counted(self.failures, &looked);
        Ok(looked)
    }

    /// How often a folder was looked into.
    pub(crate) fn lookups(&self) -> u64
        ensures { result ≡ (counts_in self.now).lookups }
    {
        self.lookups
    }

    /// How often the device failed.
    pub(crate) fn failures(&self) -> u64
        ensures { result ≡ (counts_in self.now).failures }
    {
        self.failures
    }
}

/// The count of failures after a lookup. It saturates.
fn counted(failures: u64, looked: &Looked) -> u64
    ensures { result ≡ counted_up failures (count_by has_failed (result_of looked.now ∷ [])) }
{
    match looked {
        Looked::Failed => failures.saturating_add(1),
        _ => failures,
    }
}
