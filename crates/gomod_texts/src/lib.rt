//! The texts that commands print, the reports that they give instead, and how both are written.
//!
//! A command ends with a `Text` or with a `Report`. A text holds what its lines are made of, a report says what is wrong.
//! Each writes its lines to a sink without taking memory, and a run ends with a `Status`. `specs/` also has what the
//! texts of `graph`, `list` and `chain` have to do with the files of modules, and what each line says.
//!
//! The crate is below what makes the texts, gomod_outcomes, and below the program, gomod_run, whose users have these names
//! from there. What only these call is public as well: `Text::whole`, `edges`, `rows` and `steps`, and `write_whole`.
//!
//! For example, the text of a chain to `b.io` may have the lines `example.com/m`, `a.io@v1.0.0` and `b.io@v1.2.0`, and
//! the report of a missing file is `a.io@v1.0.0: Missing`.
#![tactic(auto)]

mod edges;
mod fields;
mod reports;
mod rows;
mod steps;
mod text;

pub use crate::reports::lines::write_line;
pub use crate::reports::report::{Refusal, Report};
pub use crate::reports::status::Status;
pub use crate::text::{Text, write_whole};
