//! Command lines over stores in memory.

ghost use Rattle.std.specs.Prelude.{◌≡◌, []};

use crate::program::Program;
use gm_name::ModPath;
use gm_store::{FileName, Files, MemoryFiles, ProxyList};
use gomod_case_files::{STDIN, View};
use gomod_case_runs::{Count, Folders, InMemory, Outcome, Parsed, ParsedRun, Room, asked_of};
use gomod_words::Command;
use std::alloc::{AllocError, Global};

/// The files of a case in memory.
#[derive_where(Clone, Copy)]
pub(crate) struct Memory<'a, P> {
    pub(crate) alloc: Global,
    pub(crate) program: &'a P,
    pub(crate) view: View<'a>,
    pub(crate) count: &'a Count,
}

impl<P: Program> Memory<'_, P> {
    /// Runs a command line over stores in memory, whose device fails at the broken file, if there is one. The result is
    /// none if a file that its words name is not in the case.
    pub(crate) fn outcome(
        &self,
        parsed: &Parsed,
        broken: Option<&FileName>,
        room: Room,
    ) -> Result<Option<InMemory>, AllocError> {
        match &parsed.command {
            Command::Versions { path, .. } => self.over_lists(parsed, path, broken, room),
            Command::Fmt | Command::Edit(_) => self.over_main(parsed, room),
            Command::Graph | Command::List { .. } | Command::Chain(_) => {
                self.over_graph(parsed, broken, room)
            }
        }
    }

    /// Runs a command of the case over stores in memory, if it can be run there.
    pub(crate) fn found(
        &self,
        parsed_run: &ParsedRun<'_>,
        room: Room,
    ) -> Result<Option<InMemory>, AllocError> {
        match &parsed_run.parsed {
            Some(parsed) => self.outcome(parsed, None, room),
            None => Ok(None),
        }
    }

    /// The result of a command of the case, unless it runs over real files alone.
    pub(crate) fn found_outcome(
        &self,
        parsed_run: &ParsedRun<'_>,
        room: Room,
    ) -> Result<Option<Outcome>, AllocError> {
        if parsed_run.run.is_over_files_only {
            return Ok(None);
        }
        match self.found(parsed_run, room)? {
            Some(found) => Ok(Some(found.outcome)),
            None => Ok(None),
        }
    }

    /// The result of `fmt` over a main file.
    pub(crate) fn layout(&self, main: &[u8], room: Room) -> Result<Outcome, AllocError> {
        let mut files = MemoryFiles::new(self.alloc);
        self.outcome_over(&Command::Fmt, main, None, &mut files, room)
    }

    /// Runs `fmt` or `edit`.
    fn over_main(&self, parsed: &Parsed, room: Room) -> Result<Option<InMemory>, AllocError> {
        let Some(main) = self.view.named(parsed.places.main.as_str()) else {
            return Ok(None);
        };
        let mut files = MemoryFiles::new(self.alloc);
        self.run_over(&parsed.command, main, None, &mut files, room)
    }

    /// Runs `versions`.
    fn over_lists(
        &self,
        parsed: &Parsed,
        path: &ModPath,
        broken: Option<&FileName>,
        room: Room,
    ) -> Result<Option<InMemory>, AllocError> {
        let mut folders = Folders::new(self.alloc);
        self.put_lists(&mut folders, path, &parsed.places.proxy, broken)?;
        self.over_folders(&parsed.command, b"", None, folders, room)
    }

    /// Adds the folders of `versions`: those that the words name, or one with the list on standard input.
    fn put_lists(
        &self,
        folders: &mut Folders,
        path: &ModPath,
        proxy: &Option<ProxyList>,
        broken: Option<&FileName>,
    ) -> Result<(), AllocError> {
        match proxy {
            Some(list) => folders.put_proxies(self.alloc, &self.view, list)?,
            None => folders.put_list(self.alloc, path, self.view.named(STDIN).unwrap_or(b""))?,
        }
        folders.break_at(self.alloc, broken)
    }

    /// Runs `graph`, `list` or `chain`.
    fn over_graph(
        &self,
        parsed: &Parsed,
        broken: Option<&FileName>,
        room: Room,
    ) -> Result<Option<InMemory>, AllocError> {
        let command = &parsed.command;
        let (Some(main), Some(list)) = (
            self.view.named(parsed.places.main.as_str()),
            &parsed.places.proxy,
        ) else {
            return Ok(None);
        };
        let sums = match &parsed.places.sums {
            Some(place) => {
                let Some(bytes) = self.view.named(place.as_str()) else {
                    return Ok(None);
                };
                Some(bytes)
            }
            None => None,
        };
        let mut folders = Folders::new(self.alloc);
        self.put_graph(
            &mut folders,
            parsed.places.main.as_str(),
            main,
            list,
            broken,
        )?;
        self.over_folders(command, main, sums, folders, room)
    }

    /// Adds the folders of a command over a graph: those that the words name, and those by which the main file replaces
    /// modules.
    fn put_graph(
        &self,
        folders: &mut Folders,
        place: &str,
        main: &[u8],
        list: &ProxyList,
        broken: Option<&FileName>,
    ) -> Result<(), AllocError> {
        folders.put_proxies(self.alloc, &self.view, list)?;
        folders.put_replacements(self.alloc, &self.view, place, main)?;
        folders.break_at(self.alloc, broken)
    }

    /// Runs a command over folders.
    fn over_folders(
        &self,
        command: &Command,
        main: &[u8],
        sums: Option<&[u8]>,
        folders: Folders,
        room: Room,
    ) -> Result<Option<InMemory>, AllocError> {
        let Some(mut files) = folders.into_store(self.alloc) else {
            return Ok(None);
        };
        self.run_over(command, main, sums, &mut files, room)
    }

    /// Runs a command over a store that was asked for nothing yet. There is always a result.
    fn run_over<F: Files>(
        &self,
        command: &Command,
        main: &[u8],
        sums: Option<&[u8]>,
        files: &mut F,
        room: Room,
    ) -> Result<Option<InMemory>, AllocError>
        requires { (F.state files.old).asked ≡ [] }
    {
        let outcome = self.outcome_over(command, main, sums, files, room)?;
        let asked = asked_of(self.alloc, files)?;
        Ok(Some(InMemory { outcome, asked }))
    }

    /// The result of a command over a store that was asked for nothing yet.
    fn outcome_over<F: Files>(
        &self,
        command: &Command,
        main: &[u8],
        sums: Option<&[u8]>,
        files: &mut F,
        room: Room,
    ) -> Result<Outcome, AllocError>
        requires { (F.state files.old).asked ≡ [] }
    {
        let (mut out, mut report) = room.sinks(self.alloc)?;
        self.count.add();
        let status = self.program.status_over(
            self.alloc,
            command,
            main,
            sums,
            files,
            &mut out,
            &mut report,
        );
        Ok(Outcome {
            out,
            report,
            status,
        })
    }
}
