//! Whether a program has the results that cases state: over real files and over stores in memory, and over outputs,
//! files and stores that fail.
//!
//! `exit_code` runs the cases of text files, and reports those whose results differ. The program that it runs them with
//! has the trait `Program`, so the crate is proved beside the program and not above it.
#![tactic(auto)]

mod checking;
mod cutting;
mod memory;
mod outputs;
mod program;
mod refusals;
mod session;
mod sweeping;
mod workspace;

pub use crate::program::Program;
pub use crate::session::exit_code;
