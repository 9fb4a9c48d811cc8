//! A store in memory whose device fails once, at a chosen request.
//!
//! Tests use it to inject a device failure at every point of a run, without a real device.

ghost use Rattle.std.specs.Prelude.{◌≡◌, [], Some, None, OnOk, IsErr};
ghost use Rattle.gm_store_parts.specs.Asked.{answer_in, name_of};
ghost use Rattle.gm_store_parts.specs.Requests.{IsRequest};

use crate::files::history::History;
use crate::files::memory::MemoryFiles;
use crate::files::{Answer, AskFault, Asks, FileName, Files};

/// A store in memory that refuses one request, like a device that fails once and then works again.
#[derive(Drop)]
pub struct FailingFiles {
    /// The store that answers the requests that pass.
    inside: MemoryFiles,
    /// How many requests pass before the failure, or `None` once it has happened.
    left: Option<u64>,
    /// The refused request, once there was one. It takes no memory, and only proofs read it.
    refusals: History<FileName, AskFault>,
}

impl FailingFiles {
    ghost use Rattle.gm_store_parts.specs.Failing.{asks_left, inside_of, refusals_of};

    /// A store that passes the first `asks` requests to `inside`, refuses the next one with `AskFault::Device`,
    /// and passes all later ones.
    ///
    /// A request refused for lack of memory isn't counted. All answers are those of `inside`, including the ones
    /// that it gave before.
    pub fn after(inside: MemoryFiles, asks: u64) -> FailingFiles
        ensures inside { inside_of result ≡ inside }
        ensures left { asks_left result ≡ Some asks }
        ensures refused { refusals_of result ≡ [] }
    {
        FailingFiles {
            inside,
            left: Some(asks),
            refusals: History::new(),
        }
    }
}

impl Asks for FailingFiles {
    ghost use Rattle.gm_store_parts.specs.Failing.{asks_left, failing_files_state as state_of, may_give_or_fail, one_fewer};

    ghost state = { state_of };

    ghost may_answer = { may_give_or_fail };

    fn ask(&mut self, name: &FileName) -> Result<(), AskFault>
        requires { answer_in (state_of self.old).asked (name_of name.now) ≡ None }
        ensures request { IsRequest (may_give_or_fail self.old) (may_give_or_fail self.new)
            (state_of self.old) (state_of self.new) (name_of name.now) result }

        // The device fails exactly once: when no request is left before the failure.
        ensures fails { asks_left self.old ≡ Some 0 → IsErr result }
        ensures device { result ≡ Err AskFault.Device
            → (asks_left self.old ≡ Some 0) × (asks_left self.new ≡ None) }
        ensures passes { OnOk result (asks_left self.new ≡ one_fewer (asks_left self.old)) }
        ensures no_memory { result ≡ Err AskFault.NoMemory → asks_left self.new ≡ asks_left self.old }
    {
        match self.left {
            Some(0) => {
                self.refusals = self.refusals.with(name, &AskFault::Device);
                self.left = None;
                Err(AskFault::Device)
            }
            Some(left) => {
                self.inside.ask(name)?;
                self.left = Some(left - 1);
                Ok(())
            }
            None => self.inside.ask(name),
        }
    }

    fn last(&self) -> &Answer {
        self.inside.last()
    }

    fn faults(&self) -> u64 {
        match self.left {
            Some(_) => 0,
            None => 1,
        }
    }
}

impl Files for FailingFiles {
    fn count(&self) -> usize {
        self.inside.count()
    }

    fn name(&self, i: usize) -> &FileName {
        self.inside.name(i)
    }

    fn answer(&self, i: usize) -> &Answer {
        self.inside.answer(i)
    }
}
