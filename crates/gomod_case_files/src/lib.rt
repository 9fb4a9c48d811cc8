//! Cases, worked examples of a command line, as text, and the folders they run in.
//!
//! A case has a title, commands with the results that they must have, and the files that they run over.
//! docs/dev/CASES.md describes the whole form. For example, this text has one case:
//!
//! ```text
//! === Several blanks between words are laid out as one
//! $ gomod fmt a/go.mod
//! > module example.com/a
//! @ a/go.mod
//! -- a/go.mod --
//! module    example.com/a
//! ```
//!
//! `case_texts` divides a file of cases by its titles, and `read_case` reads such a case as a `Case` with one `Run` and
//! one `CaseFile`. The run has the three words of the command, the line after `> ` as its output, an empty report, the
//! status 0, and `a/go.mod` as the one file that it opens. If a line has no place in a case, the result is a `CaseFault`
//! with its number. A case that is run at several sizes is a text with places for the size, and `read_case` reads what
//! `CaseText::at` makes of it for each.
//!
//! `lay_files` writes the files of a case into a real folder. A `View` is the same files as bytes in memory, one of which
//! may be cut off.
//!
//! Nothing here depends on what the commands do.
#![tactic(auto)]

mod cases;
mod escapes;
mod faults;
mod folders;
mod numbering;
mod pieces;
mod places;
mod reading;
mod sizes;
mod views;
mod words;

pub use crate::cases::{Case, CaseFile, Content, Run, STDIN};
pub use crate::faults::CaseFault;
pub use crate::folders::{lay_files, make_folder};
pub use crate::pieces::NO_LINE_END;
pub use crate::places::{is_near, tidied};
pub use crate::reading::read_case;
pub use crate::sizes::{CaseText, Sizes, case_texts};
pub use crate::views::View;
pub use crate::words::texts_of;
