//! Commands of a case that call a function of a library below the command line.
//!
//! They are for rules that no command line shows by itself. docs/dev/CASES.md says what each of them gives.
#![tactic(auto)]

mod call_faults;
mod calls;
mod file_calls;
mod main_calls;
mod name_calls;
mod store_calls;

pub use crate::calls::call;
