//! Reports of cases that fail.

use crate::outcomes::Outcome;
use gomod_case_files::{NO_LINE_END, Run};
use std::alloc::{AllocError, Global};

/// How many bytes of a text are shown.
const SHOWN: usize = 2_000;

/// How a case differs: lines of text.
#[derive(Drop)]
pub struct Differences {
    alloc: Global,
    text: String,
    /// Whether memory ran out for one of the lines. It is asked for once, at the end.
    lacks_memory: bool,
}

impl Differences {
    /// No difference.
    pub fn new(alloc: Global) -> Differences {
        Differences {
            alloc,
            text: String::new(alloc),
            lacks_memory: false,
        }
    }

    /// Whether there is no difference, so that the case passes.
    pub fn is_empty(&self) -> bool {
        self.text.as_str().is_empty()
    }

    /// The lines so far, if there was memory for all of them.
    pub fn finished(&self) -> Result<&str, AllocError> {
        if self.lacks_memory {
            return Err(AllocError);
        }
        Ok(self.text.as_str())
    }

    /// Adds a piece of a line.
    fn push(&mut self, piece: &str) {
        if self.text.push_str(piece).is_err() {
            self.lacks_memory = true;
        }
    }

    /// Adds a number in a line.
    fn push_number(&mut self, number: usize) {
        if write!(self.text, "{number}").is_err() {
            self.lacks_memory = true;
        }
    }

    /// Adds a line.
    pub fn line(&mut self, line: &str) {
        self.push(line);
        self.push("\n");
    }

    /// Adds a number.
    pub fn number(&mut self, what: &str, number: usize) {
        self.push(what);
        self.push(": ");
        self.push_number(number);
        self.push("\n");
    }

    /// Adds which command differs, and over what.
    pub fn command(&mut self, run: &Run<'_>, over: &str) {
        self.push("  line ");
        self.push_number(run.line);
        self.push(", ");
        self.push(over);
        self.push(": $ ");
        self.line(run.command);
    }

    /// Adds a text in the form of a case.
    pub fn text(&mut self, mark: &str, bytes: &[u8]) {
        let shown = &bytes[..bytes.len().min(SHOWN)];
        self.lines(mark, shown);
        if shown.len() < bytes.len() {
            self.line("    (and more)");
        } else if !bytes.is_empty() && !bytes.ends_with(b"\n") {
            self.marked(mark, NO_LINE_END);
        }
    }

    /// Adds the lines of a text, each after its mark.
    fn lines(&mut self, mark: &str, bytes: &[u8]) {
        let Ok(text) = String::from_utf8_lossy(self.alloc, bytes) else {
            self.lacks_memory = true;
            return;
        };
        for line in text.as_str().lines() {
            self.marked(mark, line);
        }
    }

    /// Adds a line after its mark.
    fn marked(&mut self, mark: &str, line: &str) {
        self.push(mark);
        if !line.is_empty() {
            self.push(" ");
        }
        self.line(line);
    }

    /// Adds a status.
    fn status(&mut self, status: u8) {
        self.push("? ");
        self.push_number(usize::from(status));
        self.push("\n");
    }

    /// Adds the result of a command, in the form of a case.
    pub fn outcome(&mut self, outcome: &Outcome) {
        self.line("  got:");
        self.text(">", outcome.out.bytes());
        self.text("!", outcome.report.bytes());
        self.status(outcome.status);
    }

    /// Adds the expected result of a command, in the form of a case.
    pub fn wanted(&mut self, run: &Run<'_>) {
        self.line("  wanted:");
        self.text(">", run.out.as_slice());
        self.text("!", run.report.as_slice());
        self.status(run.wanted_status());
    }

    /// Adds the files that were opened, in the form of a case.
    pub fn opened(&mut self, names: &[String]) {
        for name in names {
            self.marked("@", name.as_str());
        }
    }
}
