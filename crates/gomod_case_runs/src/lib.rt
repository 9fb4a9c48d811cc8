//! The runs of cases: what they run over, their outcomes, and which are right.
//!
//! `Folders` makes a store in memory of the files of a case, which stands for the proxy folders of the command line.
//! `CaseRuntime` is the runtime of the program over the real files in one folder: the words of the command line and
//! standard input, `KnownInput`, are those of the case, and a `Log` records what is opened. An `Outcome` is what a
//! command wrote, with its status; `Room` says how much it may write. `Differences` is the report of a case that fails,
//! and `Count` the number of runs.
//!
//! A `ParsedRun` is what a command asks the program for. `check_result` compares what it did over real files, `Real`,
//! with the case, `check_found` what it did over a store in memory, `InMemory`. `CutFile` and `Output` say what is
//! right over a file that is cut off and an output that is full, `report_of` and `fails_after` over a file that can't
//! be opened.
#![tactic(auto)]

mod case_runtime;
mod counting;
mod cuts;
mod differences;
mod failing;
mod full_outputs;
mod known_input;
mod outcomes;
mod parsing;
mod results;
mod stores;

pub use crate::case_runtime::{CaseRuntime, Log};
pub use crate::counting::Count;
pub use crate::cuts::{
    CutFile, begins_line, check_found_over_cut, check_real_over_cut, is_cut, is_short,
};
pub use crate::differences::Differences;
pub use crate::failing::{fails_after, report_failing, report_of, report_of_device};
pub use crate::full_outputs::{Output, report_full};
pub use crate::known_input::KnownInput;
pub use crate::outcomes::{DEVICE, Outcome, Room};
pub use crate::parsing::{Parsed, ParsedRun, parsed_runs};
pub use crate::results::{
    InMemory, Real, asked_of, check_found, check_result, check_text, is_wanted, report_difference,
    room_for,
};
pub use crate::stores::Folders;
