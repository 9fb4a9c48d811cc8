//! Names of files, answers, and the traits of stores. The modules in the folder have the stores in memory and what
//! stores keep.
//!
//! Other crates get the files of dependencies only through the trait `Asks`. Each file is answered once, so a run is a
//! function of the answers, and one store can stand in for another. A store with the trait `Files` also keeps all
//! answers.

pub(crate) mod all_answers;
pub(crate) mod failing;
pub(crate) mod history;
pub(crate) mod keeping;
pub(crate) mod last_answer;
pub(crate) mod memory;

ghost use Rattle.std.specs.Prelude.{◌≡◌, ◌<◌, length, slice_get, Some, None, IfOk};
ghost use Rattle.gm_store_parts.specs.Asked.{name_of};
ghost use Rattle.gm_store_parts.specs.declared.files.AskFault.TheVariants as ask_fault;

use gm_name::{ModPath, ModVersion, NoMemory};
use std::alloc::{AllocError, AllocFailed, Global};
use thiserror::Error;

/// The name of a file that is requested from a store. Names are equal if they are of the same kind, with equal texts
/// (the law `names_are_equal_by_text`). The maps of memory stores use the derived order.
#[derive(Debug, Drop, PartialEq, Eq, PartialOrd, Ord)]
pub enum FileName {
    /// The `.mod` file of a module at a version.
    Mod(ModPath, ModVersion),
    /// The `go.mod` of a local folder, whose text is that of a `replace` directive.
    Folder(String),
    /// The list file of a module, which names its versions.
    List(ModPath),
}

/// A store's answer to a request.
#[derive(Drop, PartialEq, Eq)]
pub enum Answer {
    /// The file's bytes, at most `LIMIT` (16 MiB).
    Bytes(Vec<u8>),
    /// There is no such file.
    Absent,
    /// The file has more than `LIMIT` bytes.
    TooLong,
}

/// A copy of a name. The only refusal is `NoMemory`.
pub fn copy_name(alloc: Global, name: &FileName) -> Result<FileName, NoMemory>
    ensures { IfOk result (λ copy. name_of copy ≡ name_of name.now) }
{
    match name {
        FileName::Mod(path, version) => Ok(FileName::Mod(path.copy(alloc)?, version.copy(alloc)?)),
        FileName::Folder(text) => Ok(FileName::Folder(String::from_str(alloc, text.as_str())?)),
        FileName::List(path) => Ok(FileName::List(path.copy(alloc)?)),
    }
}

/// Why a store gave no answer.
#[derive(Clone, Copy, Debug, PartialEq, Eq, Error)]
pub enum AskFault {
    /// Memory ran out.
    #[error("out of memory")]
    NoMemory,
    /// The store's device failed during this request.
    #[error("the device failed")]
    Device,
}

impl From<AllocError> for AskFault {
    ghost from_gives = { λ _ fault. fault ≡ ask_fault.NoMemory };

    fn from(_error: AllocError) -> AskFault {
        AskFault::NoMemory
    }
}

impl<T: Drop> From<AllocFailed<T>> for AskFault {
    ghost from_gives = { λ _ fault. fault ≡ ask_fault.NoMemory };

    fn from(_error: AllocFailed<T>) -> AskFault {
        AskFault::NoMemory
    }
}

/// A store that files are requested from. A file that was answered isn't requested again.
///
/// So the files of a run don't change while it lasts, and contracts can refer to all that was read. The store itself
/// need not keep more than the last answer.
pub trait Asks {
    ghost use Rattle.std.specs.Prelude.{Option};
    ghost use Rattle.gm_store_parts.specs.Asked.{IsLast, IsWithinLimit, Name, Reply, name_of, reply_of, answer_in};
    ghost use Rattle.gm_store_parts.specs.Requests.{IsRequest};
    ghost use Rattle.gm_store_parts.specs.States.{StoreState};

    /// The names requested so far with their answers, the names whose requests were refused because the device
    /// failed, and how often the device has failed. The count saturates at the greatest `u64`.
    ghost state: { Self → StoreState };

    /// What may come of requesting a name: an answer, or none if the device may fail at it. For a real device anything
    /// is possible.
    ghost may_answer: { Self → Name → Option Reply → Type 0 };

    /// Requests a file that was not requested before. If the store answers, the answer stands after the earlier ones,
    /// and `last` gives it.
    ///
    /// `NoMemory` is returned if memory runs out, `Device` if the device fails. A refusal leaves the answers
    /// unchanged, so the file may be requested again. A failure of the device records the name, and is returned
    /// only if the device might fail at the name, and a failure was counted, or the count is at its maximum; the count
    /// never falls. No answer has more than `LIMIT` bytes, and a request makes nothing else possible.
    fn ask(&mut self, name: &FileName) -> Result<(), AskFault>
        requires { answer_in (state self.old).asked (name_of name.now) ≡ None }
        ensures { IsRequest (may_answer self.old) (may_answer self.new)
            (state self.old) (state self.new) (name_of name.now) result };

    /// The answer to the last request that was answered. The store must have answered one.
    fn last(&self) -> &Answer
        requires { 0 < length (state self.now).asked }
        ensures value { IsLast (state self.now).asked (reply_of result.now) }
        ensures within_limit { IsWithinLimit (reply_of result.now) };

    /// How often the device has failed. The count saturates at the greatest `u64`.
    fn faults(&self) -> u64
        ensures { result ≡ (state self.now).faults };
}

/// A store that keeps its answers, in the order of the requests.
pub trait Files: Asks {
    ghost use Rattle.gm_store_parts.specs.Asked.{IsWithinLimit, name_of, reply_of, names_in, replies_in};

    /// The number of requests that were answered.
    fn count(&self) -> usize
        ensures { result ≡ length (Self.state self.now).asked };

    /// The name in answered request number `i`, counted from 0.
    fn name(&self, i: usize) -> &FileName
        requires { i < length (Self.state self.now).asked }
        ensures { slice_get (names_in (Self.state self.now).asked) i ≡ Some (name_of result.now) };

    /// The answer to request number `i`, counted from 0.
    fn answer(&self, i: usize) -> &Answer
        requires { i < length (Self.state self.now).asked }
        ensures value { slice_get (replies_in (Self.state self.now).asked) i ≡ Some (reply_of result.now) }
        ensures within_limit { IsWithinLimit (reply_of result.now) };
}
