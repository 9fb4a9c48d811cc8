//! All answers of a store, with the names that were requested.

ghost use Rattle.std.specs.Prelude.{◌≡◌, ◌<◌, Some, length, slice_get};
ghost use Rattle.gm_store_parts.specs.Asked.{IsWithinLimit, name_of, names_in, replies_in, reply_of};

use crate::files::keeping::Keeps;
use crate::files::{Answer, FileName, copy_name};
use gm_name::NoMemory;
use std::alloc::Global;

/// A requested name with its answer.
#[derive(Drop)]
pub struct Answered {
    /// The name that was requested.
    pub name: FileName,
    /// The answer to it.
    pub answer: Answer,
    // No file of more than `LIMIT` bytes is kept.
    ghost within_limit: { IsWithinLimit (reply_of answer) },
}

/// All answered requests of a store, with their answers.
#[derive(Drop)]
pub struct AllAnswers {
    /// The answered requests, in order.
    asked: Vec<Answered>,
}

impl AllAnswers {
    ghost use Rattle.gm_store_parts.specs.Kept.{all_pairs};

    /// The number of requests.
    pub fn count(&self) -> usize
        ensures { result ≡ length (all_pairs self.now) }
    {
        self.asked.len()
    }

    /// The name in request number `i`, counted from 0.
    pub fn name(&self, i: usize) -> &FileName
        requires { i < length (all_pairs self.now) }
        ensures { slice_get (names_in (all_pairs self.now)) i ≡ Some (name_of result.now) }
    {
        &self.asked[i].name
    }

    /// The answer to request number `i`, counted from 0.
    pub fn answer(&self, i: usize) -> &Answer
        requires { i < length (all_pairs self.now) }
        ensures value { slice_get (replies_in (all_pairs self.now)) i ≡ Some (reply_of result.now) }
        ensures within_limit { IsWithinLimit (reply_of result.now) }
    {
        &self.asked[i].answer
    }
}

impl Keeps for AllAnswers {
    ghost use Rattle.gm_store_parts.specs.Kept.{all_pairs};

    ghost kept = { all_pairs };

    fn new(alloc: Global) -> AllAnswers {
        AllAnswers {
            asked: Vec::new(alloc),
        }
    }

    fn keep(&mut self, alloc: Global, name: &FileName, answer: Answer) -> Result<(), NoMemory> {
        let name = copy_name(alloc, name)?;
        self.asked.push(Answered { name, answer })?;
        Ok(())
    }

    fn last(&self) -> &Answer {
        self.answer(self.count() - 1)
    }
}
