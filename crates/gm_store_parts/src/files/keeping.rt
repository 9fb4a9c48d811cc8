//! What a store keeps of the requests that it answered.

ghost use Rattle.std.specs.Prelude.{◌≡◌, ◌<◌, [], ◌∷◌, ◌++◌, length, List, OnOk, OnErr};

use crate::files::{Answer, FileName};
use gm_name::NoMemory;
use std::alloc::Global;

/// What a store keeps of the requests that it answered: all of them (`AllAnswers`), or the last answer
/// (`LastAnswer`).
pub trait Keeps {
    ghost use Rattle.gm_store_parts.specs.Asked.{IsLast, IsWithinLimit, Name, Reply, name_of, reply_of};

    /// The requested names with their answers, in order.
    ghost kept: { Self → List (Name × Reply) };

    /// No requests.
    fn new(alloc: Global) -> Self
        ensures { kept result ≡ [] };

    /// Adds a request and its answer after the earlier ones. The only refusal is `NoMemory`, which leaves them
    /// unchanged.
    fn keep(&mut self, alloc: Global, name: &FileName, answer: Answer) -> Result<(), NoMemory>
        requires { IsWithinLimit (reply_of answer) }
        ensures ok { OnOk result (kept self.new ≡ kept self.old ++ (name_of name.now, reply_of answer) ∷ []) }
        ensures err { OnErr result (kept self.new ≡ kept self.old) };

    /// The answer to the last request. There must be one.
    fn last(&self) -> &Answer
        requires { 0 < length (kept self.now) }
        ensures value { IsLast (kept self.now) (reply_of result.now) }
        ensures within_limit { IsWithinLimit (reply_of result.now) };
}
