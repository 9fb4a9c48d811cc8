//! What each command ends with, a text or a report, over bytes that have been read and a store.
//!
//! `outcome` is for any command, `answer` for those that ask about a module graph. Neither writes anything, and of files
//! they see only what the store answers. The crate is below the program, gomod_run, whose users have `answer` and `Query`
//! from there, and which writes what `outcome` returns.
//!
//! For example, the outcome of `versions example.com/p`, over a store whose list has the lines `v1.10.0` and `v1.9.0` and
//! in which the go.mod of v1.10.0 retracts nothing, is the text `example.com/p v1.9.0 v1.10.0`.
#![tactic(auto)]

mod asking;
mod commands;
mod edit;
mod fmt;
mod queries;
mod versions;

pub use crate::commands::outcome;
pub use crate::queries::answering::answer;
pub use crate::queries::query::Query;
