//! What the gomod program does between its command line and its exit status.
//!
//! `exit_code` is the whole program: it reads the words of the command line and the files that they name, runs the
//! command, and writes to standard output and standard error. `ending_of` and `ending_of_words` do the same over
//! any runtime and any two sinks, so that whole runs can be checked inside one process. `run` takes bytes that have
//! been read already.
//!
//! For example, `gomod versions example.com/p` with the lines `v1.10.0` and `v1.9.0` on standard input prints
//! `example.com/p v1.9.0 v1.10.0` and exits with status 0.
#![tactic(auto)]

mod command;
mod ending;
mod inputs;
pub mod laws;
mod program;
pub mod queries;
mod running;
mod stores;
mod writing;

pub use crate::ending::Ending;
pub use crate::program::{ending_of, ending_of_words, exit_code};
pub use crate::running::run;
pub use gm_file::Misreading;
pub use gm_graph::{Class, Fault};
pub use gomod_outcomes::{Query, answer};
pub use gomod_texts::{Refusal, Report, Status, Text, write_line};
pub use gomod_words::{Command, Places, UsageFault, read_words};
