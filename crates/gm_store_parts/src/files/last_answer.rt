//! The last answer of a store alone.

ghost use Rattle.gm_store_parts.specs.Asked.{IsLast, IsWithinLimit, reply_of};
ghost use Rattle.gm_store_parts.specs.History.{asked_in};

use crate::files::history::History;
use crate::files::keeping::Keeps;
use crate::files::{Answer, FileName};
use gm_name::NoMemory;
use std::alloc::Global;

/// The last answer of a store. Proofs see all requests, as a history.
#[derive(Drop)]
pub struct LastAnswer {
    /// The last answer, or `Absent` before the first.
    last: Answer,
    /// The answered requests, with their answers.
    history: History<FileName, Answer>,
    // The last answer is that of the history, and has at most 16 MiB.
    ghost is_last: { IsWithinLimit (reply_of last) × IsLast (asked_in history) (reply_of last) },
}

impl Keeps for LastAnswer {
    ghost use Rattle.gm_store_parts.specs.Kept.{past_pairs};

    ghost kept = { past_pairs };

    fn new(_alloc: Global) -> LastAnswer {
        LastAnswer {
            last: Answer::Absent,
            history: History::new(),
        }
    }

    fn keep(&mut self, _alloc: Global, name: &FileName, answer: Answer) -> Result<(), NoMemory> {
        let history = self.history.with(name, &answer);
        *self = LastAnswer {
            last: answer,
            history,
        };
        Ok(())
    }

    fn last(&self) -> &Answer {
        &self.last
    }
}
