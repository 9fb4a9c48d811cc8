//! What is wrong when a command prints nothing.

ghost use Rattle.std.specs.Prelude.{◌≡◌};
ghost use Rattle.gomod_texts.specs.Outcome.{report_status};
ghost use Rattle.gomod_texts.specs.Reports.{refusal_word};

use crate::reports::status::Status;
use gm_file::Misreading;
use gm_graph::{Class, Fault};
use gm_name::{ModPath, ModVersion};
use gm_store::FileName;

/// Why an operation of `edit` is refused.
#[derive(Clone, Copy)]
pub enum Refusal {
    /// The text is not an operation.
    Spelling,
    /// A version doesn't fit its path.
    Misfit,
}

impl Refusal {
    /// The word for it in a report. It takes no memory.
    pub fn word(self) -> &'static str
        ensures { result.now ≡ refusal_word self }
    {
        match self {
            Refusal::Spelling => "Spelling",
            Refusal::Misfit => "Misfit",
        }
    }
}

/// What is wrong, so that a command has no text to print. `write` gives the lines in the comments here.
#[derive(Drop)]
pub enum Report<'a> {
    /// `gomod: no memory`: memory ran out.
    NoMemory,
    /// `go.mod:LINE: KIND`: the main file is invalid.
    Main {
        /// The lowest line with a fault, counted from 1, or 0 if the whole file is at fault.
        line: usize,
        /// What is wrong there.
        kind: Misreading,
    },
    /// `go.sum:LINE: BadSum`: this line of the go.sum, counted from 1, is the first that is invalid.
    Sums(usize),
    /// `go.sum:0: TooMany`: the go.sum is longer than 16,777,216 bytes.
    LongSums,
    /// `gomod: TooMany`: more than 65,536 module versions would be opened.
    TooMany,
    /// `gomod: device at NAME`: the store's device failed on this file. `NAME` is `PATH@VERSION`, `FOLDER` or
    /// `PATH list`.
    Device(FileName),
    /// `PATH@VERSION: CLASS` or `PATH@VERSION: Malformed LINE KIND`: a line for each of these modules, in this order.
    Faults(Vec<Fault>),
    /// `PATH: NotListed`: the build list has no entry for this path.
    NotListed(&'a ModPath),
    /// `edit N: KIND`: an operation is refused.
    Operation {
        /// The number of the operation, counted from 1.
        number: usize,
        /// Why it is refused.
        refusal: Refusal,
    },
    /// `PATH: CLASS`: the list of this module can't be used.
    List(&'a ModPath, Class),
    /// `PATH@VERSION: CLASS` or `PATH@VERSION: Malformed LINE KIND`: the go.mod of one module can't be used.
    File(&'a ModPath, ModVersion, Class),
    /// `gomod: cannot read NAME`: the file with this name, or standard input, whose name is `-`.
    Unreadable(&'a str),
}

impl<'a> Report<'a> {
    /// The status that a run with this report ends with.
    pub fn status(&self) -> Status
        ensures { result ≡ report_status self.now }
    {
        match self {
            Report::NoMemory | Report::Device(_) | Report::Unreadable(_) => Status::Device,
            _ => Status::Fault,
        }
    }
}
