//! A store of files in memory: one map from names to contents.
//!
//! It serves commands that read no other file than the one given on standard input, and tests that need neither
//! several folders nor device failures.

ghost use Rattle.std.specs.Prelude.{◌≡◌, [], Some, None, OnOk, OnErr, IfOk};
ghost use Rattle.gm_store_parts.specs.Asked.{IsWithinLimit, Name, name_of, reply_of};

use crate::files::all_answers::AllAnswers;
use crate::files::keeping::Keeps;
use crate::files::{Answer, AskFault, Asks, FileName, Files};
use crate::reading::LIMIT;
use gm_name::NoMemory;
use std::alloc::Global;
use std::collections::BTreeMap;

/// A store of files in memory: a map from names to contents. Its device never fails.
#[derive(Drop)]
pub struct MemoryFiles {
    /// The allocator for the kept names and answers. A wrapper may use the same.
    pub(crate) alloc: Global,
    /// The files' contents by name.
    held: BTreeMap<FileName, Vec<u8>>,
    /// The answered requests.
    asked: AllAnswers,
}

impl MemoryFiles {
    ghost use Rattle.gm_store_parts.specs.Memory.{HoldsSameFiles, AddsFile, held_at, may_give, pairs_of};

    /// A store without files. Nothing has been requested from it yet.
    pub fn new(alloc: Global) -> MemoryFiles
        ensures asked { pairs_of result ≡ [] }
        ensures empty { (name : Name) → held_at result name ≡ None }
    {
        MemoryFiles {
            alloc,
            held: BTreeMap::new(alloc),
            asked: AllAnswers::new(alloc),
        }
    }

    /// Puts a file into the store. It replaces a file of the same name; answers that were given stay.
    ///
    /// The only refusal is `NoMemory`, which leaves the store unchanged. `content` may be longer than `LIMIT`:
    /// then the answer is `Answer::TooLong`.
    pub fn put(&mut self, name: FileName, content: Vec<u8>) -> Result<(), NoMemory>
        ensures asked { pairs_of self.new ≡ pairs_of self.old }
        ensures held { OnOk result (AddsFile self.old self.new (name_of name) content.items) }
        ensures err { OnErr result (HoldsSameFiles self.old self.new) }
    {
        self.held.insert(name, content)?;
        Ok(())
    }

    /// The answer to a name: a copy of the file's bytes, `TooLong` or `Absent`. The only refusal is `NoMemory`.
    fn look_up(&self, name: &FileName) -> Result<Answer, NoMemory>
        ensures content { IfOk result (λ answer. may_give self.now (name_of name.now) (Some (reply_of answer))) }
        ensures within_limit { IfOk result (λ answer. IsWithinLimit (reply_of answer)) }
    {
        match self.held.get(name) {
            None => Ok(Answer::Absent),
            Some(content) => {
                if content.len() > LIMIT {
                    return Ok(Answer::TooLong);
                }
                Ok(Answer::Bytes(copy_bytes(content)?))
            }
        }
    }
}

/// A copy of some bytes. The only refusal is `NoMemory`.
pub(crate) fn copy_bytes(content: &Vec<u8>) -> Result<Vec<u8>, NoMemory>
    ensures { IfOk result (λ copy. copy.items ≡ content.now.items) }
{
    content.clone()
}

impl Asks for MemoryFiles {
    ghost use Rattle.gm_store_parts.specs.Memory.{may_give, memory_files_state};

    ghost state = { memory_files_state };

    ghost may_answer = { may_give };

    fn ask(&mut self, name: &FileName) -> Result<(), AskFault> {
        let answer = self.look_up(name)?;
        self.asked.keep(self.alloc, name, answer)?;
        Ok(())
    }

    fn last(&self) -> &Answer {
        self.asked.last()
    }

    fn faults(&self) -> u64 {
        0
    }
}

impl Files for MemoryFiles {
    fn count(&self) -> usize {
        self.asked.count()
    }

    fn name(&self, i: usize) -> &FileName {
        self.asked.name(i)
    }

    fn answer(&self, i: usize) -> &Answer {
        self.asked.answer(i)
    }
}
