//! What the arguments of a command line ask for.
//!
//! A parser of command lines splits the words into options and values. This crate gives it a table of commands
//! and turns what it finds into a `Command` and the `Places` that it works on, or a `UsageFault`. The operations of
//! `edit` stay texts and are parsed where they are applied.
//!
//! For example, `gomod list --after a.io --limit 10 --proxy vendored,mirror` asks for `Command::List` with
//! the path `a.io` and the limit 10, over the main file `go.mod`, the proxy folders `vendored` and `mirror`,
//! and no go.sum.
#![tactic(auto)]

mod command;
mod dashed;
mod given;
mod help;
pub mod laws;
mod query;
mod refusal;
mod table;
mod usage;
mod words;

pub use crate::given::{Words, given_words};
pub use crate::usage::{Command, Places, UsageFault};
pub use crate::words::read_words;
