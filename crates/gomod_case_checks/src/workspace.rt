//! Commands over real files.

use crate::memory::Memory;
use crate::program::Program;
use gomod_case_files::{Case, Run, View};
use gomod_case_runs::{CaseRuntime, Count, KnownInput, Log, Outcome, Real, Room};
use std::alloc::{AllocError, Global};

/// A case, a real folder with its files, and what its commands read from standard input.
#[derive_where(Clone, Copy)]
pub(crate) struct Workspace<'a, P> {
    pub(crate) system: HostRuntime,
    pub(crate) program: &'a P,
    pub(crate) folder: &'a str,
    pub(crate) case: &'a Case<'a>,
    pub(crate) input: KnownInput<'a>,
    pub(crate) count: &'a Count,
}

impl<'a, P: Program> Workspace<'a, P> {
    /// Where its texts and lists are.
    pub(crate) fn alloc(&self) -> Global {
        self.system.alloc()
    }

    /// The same with another standard input.
    pub(crate) fn with_input(&self, input: KnownInput<'a>) -> Workspace<'a, P> {
        Workspace {
            system: self.system,
            program: self.program,
            folder: self.folder,
            case: self.case,
            input,
            count: self.count,
        }
    }

    /// The files of the case in memory.
    pub(crate) fn memory(&self) -> Memory<'a, P> {
        Memory {
            alloc: self.alloc(),
            program: self.program,
            view: View::whole(self.case),
            count: self.count,
        }
    }

    /// Runs a command over outputs with this room.
    pub(crate) fn outcome(&self, run: &Run<'_>, room: Room) -> Result<Real, AllocError> {
        let log = Log::new(self.alloc(), None);
        self.logged(run, room, &log)
    }

    /// The result of a command over outputs with this room.
    pub(crate) fn result(&self, run: &Run<'_>, room: Room) -> Result<Outcome, AllocError> {
        let log = Log::new(self.alloc(), None);
        self.outcome_of_words(run.words.as_slice(), room, &log)
    }

    /// Runs a command that can open this many files, and not the next one.
    pub(crate) fn failing_after(
        &self,
        run: &Run<'_>,
        room: Room,
        left: usize,
    ) -> Result<Real, AllocError> {
        let log = Log::new(self.alloc(), Some(left));
        self.logged(run, room, &log)
    }

    /// Runs a command, with a record of what it reads.
    fn logged(&self, run: &Run<'_>, room: Room, log: &Log) -> Result<Real, AllocError> {
        let outcome = self.outcome_of_words(run.words.as_slice(), room, log)?;
        let opened = log.take(self.alloc());
        Ok(Real {
            outcome,
            opened,
            takes_input: log.takes_input(),
        })
    }

    /// Runs the program with these words, of which the first is its name.
    fn outcome_of_words<'run>(
        &self,
        words: &'run [Vec<u8>],
        room: Room,
        log: &'run Log,
    ) -> Result<Outcome, AllocError> {
        let (mut out, mut report) = room.sinks(self.alloc())?;
        let runtime = CaseRuntime {
            words: words.get(1..).unwrap_or(&[]),
            system: self.system,
            folder: self.folder,
            input: self.input,
            log,
        };
        self.count.add();
        let status = self.program.status_in(&runtime, &mut out, &mut report);
        Ok(Outcome {
            out,
            report,
            status,
        })
    }
}
