//! The GOPROXY fallback as a store: each request is looked up in several folders in turn.
//!
//! Folders in memory and folders of a file system differ only in the lookup, so both share this store and its
//! proofs.

ghost use Rattle.std.specs.Prelude.{◌≡◌, ◌<◌, length};
ghost use Rattle.gm_store_parts.specs.Asked.{Name, name_of};
ghost use Rattle.gm_store.specs.Counted.{inner_folders};
ghost use Rattle.gm_store.specs.FolderLookups.{marks_for};

use crate::fallback::walk::walk;
use crate::folders::FolderList;
use crate::folders::buffers::Buffers;
use crate::folders::counted::CountedFolders;
use gm_store_parts::{AllAnswers, Answer, AskFault, Asks, FileName, Files, History, Keeps, Mark};
use std::alloc::Global;

/// A store over several folders. `MemoryFolders` has them in memory, `FolderFiles` and `FolderReader` on a device.
///
/// The second parameter is what the store keeps of the requests that it answered: all, or the last answer alone.
///
/// The answer to a request is that of the folder at which `step` stops. Each lookup in a folder is counted, and each
/// failure of the device, even if the request then falls back to the next folder. Running out of memory stops a
/// request at once; the lookups until then, and their failures, are still counted.
#[derive(Drop)]
pub struct FallbackStore<F: FolderList, K: Keeps = AllAnswers> {
    /// The allocator for the kept names and answers.
    alloc: Global,
    /// The folders, and how often they were looked into.
    folders: CountedFolders<F>,
    /// The buffers for lookups.
    buffers: Buffers,
    /// The marks between the proxy folders, one fewer than these.
    marks: Vec<Mark>,
    /// What is kept of the answered requests.
    asked: K,
    /// The requests that were refused because the device failed. They take no memory, and only proofs read them.
    refusals: History<FileName, AskFault>,
    // A folder follows each mark, for each name, so the walk can't leave the list.
    ghost between: { (name : Name) → length (marks_for name marks.items) < F.count_for (inner_folders folders) name },
}

impl<F: FolderList, K: Keeps> FallbackStore<F, K> {
    ghost use Rattle.std.specs.Prelude.{[]};
    ghost use Rattle.gm_store.specs.Views.{asked_by, faults_of, folders_under, lookups_of, marks_between, refused_by};

    /// A store over these folders, with the marks between the proxy folders. Nothing has been requested from it
    /// yet.
    ///
    /// The caller shows that for each name there are more folders than marks.
    pub(crate) fn over(alloc: Global, folders: F, marks: Vec<Mark>) -> FallbackStore<F, K>
        requires { (name : Name) → length (marks_for name marks.items) < F.count_for folders name }
        ensures folders { folders_under result ≡ folders }
        ensures marks { marks_between result ≡ marks.items }
        ensures asked { asked_by result ≡ [] }
        ensures refused { refused_by result ≡ [] }
        ensures lookups { lookups_of result ≡ 0 }
        ensures faults { faults_of result ≡ 0 }
    {
        FallbackStore {
            alloc,
            folders: CountedFolders::new(folders),
            buffers: Buffers::new(alloc),
            marks,
            asked: K::new(alloc),
            refusals: History::new(),
        }
    }

    /// How often the store has looked into a folder. The count saturates at the greatest `u64`.
    pub fn lookups(&self) -> u64
        ensures { result ≡ lookups_of self.now }
    {
        self.folders.lookups()
    }
}

impl<F: FolderList, K: Keeps> Asks for FallbackStore<F, K> {
    ghost use Rattle.std.specs.Prelude.{ℕ, [], None, Some, OnOk};
    ghost use Rattle.gm_store_parts.specs.Asked.{Reply, answer_in};
    ghost use Rattle.gm_store_parts.specs.Requests.{IsRequest};
    ghost use Rattle.gm_store_parts.specs.States.{AddsAnswer};
    ghost use Rattle.gm_store_parts.specs.Steps.{HasCounted, MayStop, counted_up};
    ghost use Rattle.gm_store.specs.FolderLookups.{MayAnswerFrom};
    ghost use Rattle.gm_store.specs.Views.{counts_of, fallback_state as state_of, folders_under, marks_between};

    ghost state = { state_of };

    ghost may_answer = { λ store. MayAnswerFrom (F.may_find (folders_under store)) (marks_between store) };

    fn ask(&mut self, name: &FileName) -> Result<(), AskFault>
        requires { answer_in (state_of self.old).asked (name_of name.now) ≡ None }
        ensures request { IsRequest (MayAnswerFrom (F.may_find (folders_under self.old)) (marks_between self.old))
            (MayAnswerFrom (F.may_find (folders_under self.new)) (marks_between self.new))
            (state_of self.old) (state_of self.new) (name_of name.now) result }
        ensures same_folders { folders_under self.new ≡ folders_under self.old }
        ensures same_marks { marks_between self.new ≡ marks_between self.old }

        // The answer is that of the folder at which `step` stops. The request fails only if `step` stops at a
        // failure of the device. Failures in the folders before are counted too.
        ensures counted { OnOk result ((reply : Reply)
            × (failures : ℕ) × MayStop (λ k seen. F.may_find (folders_under self.old) k (name_of name.now) seen)
            (marks_for (name_of name.now) (marks_between self.old)) (Some reply) failures
            × AddsAnswer (state_of self.old) (state_of self.new) (name_of name.now) reply
            × ((state_of self.new).faults ≡ counted_up (state_of self.old).faults failures)) }
        ensures device { result ≡ Err AskFault.Device
            → (failures : ℕ) × MayStop (λ k seen. F.may_find (folders_under self.old) k (name_of name.now) seen)
            (marks_for (name_of name.now) (marks_between self.old)) None failures
            × ((state_of self.new).faults ≡ counted_up (state_of self.old).faults failures) }
        // Exactly the lookups that were made are counted, and those of them that failed, also if memory ran out.
        ensures lookups { HasCounted (λ k seen. F.may_find (folders_under self.old) k (name_of name.now) seen)
            (marks_for (name_of name.now) (marks_between self.old)) (counts_of self.old) (counts_of self.new) }
    {
        // This read puts the count's range into the proof, also for the early return when memory runs out.
        let _faults = self.folders.failures();
        let marks = marks_for(name, &self.marks);
        let outcome = walk(&mut self.folders, &mut self.buffers, marks, name)?;
        match outcome {
            Some(answer) => {
                self.asked.keep(self.alloc, name, answer)?;
                Ok(())
            }
            None => {
                self.refusals = self.refusals.with(name, &AskFault::Device);
                Err(AskFault::Device)
            }
        }
    }

    fn last(&self) -> &Answer {
        self.asked.last()
    }

    fn faults(&self) -> u64 {
        self.folders.failures()
    }
}

impl<F: FolderList> Files for FallbackStore<F, AllAnswers> {
    fn count(&self) -> usize {
        self.asked.count()
    }

    fn name(&self, i: usize) -> &FileName {
        self.asked.name(i)
    }

    fn answer(&self, i: usize) -> &Answer {
        self.asked.answer(i)
    }
}

/// The marks that apply to a name: those between the proxy folders for a module's file, and none for the `go.mod`
/// of a local folder, which is looked up in one place only.
fn marks_for<'a>(name: &FileName, marks: &'a [Mark]) -> &'a [Mark]
    ensures { result.now ≡ marks_for (name_of name.now) marks.now }
{
    match name {
        FileName::Folder(_) => &[],
        _ => marks,
    }
}
