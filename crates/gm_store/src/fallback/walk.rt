//! The GOPROXY fallback itself: folders are looked into in turn until `step` stops.
//!
//! The loop works over the trait `FolderList`, so folders in memory and on a device share it.

ghost use Rattle.std.specs.Prelude.{◌≡◌, ◌<◌, ℕ, length, slice_get, Some, None, IfNone, IfOk, IfSome, false, true};
ghost use Rattle.std.specs.Option.{option_map};
ghost use Rattle.gm_store_parts.specs.Asked.{IsWithinLimit, name_of, reply_of};
ghost use Rattle.gm_store_parts.specs.Faults.{HasCountedFailure};
ghost use Rattle.gm_store_parts.specs.Steps.{HasCounted, MayStop, counted_up, has_failed, outcome_of, reply_in, result_of};
ghost use Rattle.gm_store.specs.Counted.{counts_in, inner_folders};

use crate::folders::FolderList;
use crate::folders::buffers::Buffers;
use crate::folders::counted::CountedFolders;
use gm_name::NoMemory;
use gm_store_parts::{Answer, FileName, Looked, Mark, Next, step};

/// Looks into the folders in turn, and returns the answer of the one at which `step` stops, or `None` if the
/// device failed there. `marks` has the marks between the folders.
///
/// Each lookup is counted, and each failure of the device. The only refusal is `NoMemory`.
pub(crate) fn walk<F: FolderList>(
    folders: &mut CountedFolders<F>,
    buffers: &mut Buffers,
    marks: &[Mark],
    name: &FileName,
) -> Result<Option<Answer>, NoMemory>
    requires { length marks.now < F.count_for (inner_folders folders.old) (name_of name.now) }
    ensures folders { inner_folders folders.new ≡ inner_folders folders.old }
    ensures cause { IfOk result (λ answer. IfNone answer
        (HasCountedFailure (counts_in folders.old).failures (counts_in folders.new).failures)) }
    ensures stop { IfOk result (λ answer. (failures : ℕ)
        × MayStop (λ k seen. F.may_find (inner_folders folders.old) k (name_of name.now) seen) marks.now
        (option_map reply_of answer) failures
        × ((counts_in folders.new).failures ≡ counted_up (counts_in folders.old).failures failures)) }
    ensures lookups { HasCounted (λ k seen. F.may_find (inner_folders folders.old) k (name_of name.now) seen) marks.now
        (counts_in folders.old) (counts_in folders.new) }
    ensures within_limit { IfOk result (λ answer. IfSome answer (λ answer. IsWithinLimit (reply_of answer))) }
{
    // These reads put the ranges of the counts into the proof.
    let _lookups = folders.lookups();
    let _failures = folders.failures();
    let mut at = 0;
    'turns: loop {
        let looked = folders.look(buffers, at, name)?;
        let Next::Go = step(&looked, mark_at(marks, at)) else {
            return Ok(answer_in(looked));
        };
        at += 1;
    }
}

/// The mark after folder number `at`, or `None` after the last folder.
fn mark_at(marks: &[Mark], at: usize) -> Option<Mark>
    ensures { result ≡ slice_get marks.now at }
{
    marks.get(at).copied()
}

/// The answer that a lookup results in, or `None` if the device failed.
fn answer_in(looked: Looked) -> Option<Answer>
    ensures outcome { has_failed (result_of looked) ≡ false
        → option_map reply_of result ≡ outcome_of (result_of looked) Next.Take }
    ensures failed { has_failed (result_of looked) ≡ true → result ≡ None }
    ensures reply { IfSome result (λ answer. reply_of answer ≡ reply_in (result_of looked)) }
{
    match looked {
        Looked::Found(content) => Some(Answer::Bytes(content)),
        Looked::TooLong => Some(Answer::TooLong),
        Looked::Absent => Some(Answer::Absent),
        Looked::Failed => None,
    }
}
