//! The meaning of go.mod files: their directives, read from the documents of gm_syntax.
//!
//! The rules are those of the Go Modules Reference (go.mod files). The main module's file is read strictly
//! (`MainFile`): each verb must be known and each entry well-formed. A dependency's file is read laxly (`DepFile`):
//! only its `module`, `go` and `require` can be at fault, so that a directive that is newer than this crate, or that
//! counts only in the main module, can't break a build. Of all faults of a file exactly one is reported: the one on the
//! first line with one, and of that line's faults the first in the order of `DirectiveKind`.
//!
//! For example, strict reading of
//!
//!     module example.com/app
//!     go 1.21
//!     require example.com/lib v1.2.0
//!     replace example.com/lib => ../lib
//!
//! gives a `MainFile` with the module `example.com/app`, the go version (1, 21), one requirement, and the folder
//! `../lib` as the replacement of `example.com/lib` at v1.2.0. With `v2.0.0` on line 3 it gives the fault `Misfit` at
//! line 3 instead, since that version doesn't fit the path.
//!
//! `shown_versions` leaves out of a module's versions those that an interval of its latest file retracts.
//!
//! Words, lines and blocks are the matter of gm_syntax, paths and versions that of gm_name. `read_line`, `main_verb`,
//! `strict_go` and `is_folder` are public so that the crate that edits files reads single lines by the same rules.
#![tactic(auto)]

mod dep_file;
mod dep_lines;
mod directive;
mod exclusions;
mod fault;
mod fields;
mod go_version;
pub mod laws;
mod listed_file;
mod main_file;
mod main_module;
mod misreading;
mod part;
mod replace;
mod replacements;
mod required;
mod retractions;
mod shown;
mod sides;
mod sweep;
mod verb;

pub use crate::dep_file::DepFile;
pub use crate::directive::{Directive, read_line};
pub use crate::fault::{DirectiveKind, FileFault, LineFault};
pub use crate::fields::block_after_line;
pub use crate::go_version::strict_go;
pub use crate::listed_file::ListedFile;
pub use crate::main_file::MainFile;
pub use crate::main_module::MainModule;
pub use crate::misreading::{BytesFault, Misreading};
pub use crate::part::is_empty_block;
pub use crate::replace::{Interval, Replace, Right};
pub use crate::shown::shown_versions;
pub use crate::sides::does_left_fit;
pub use crate::verb::{Mode, Verb, is_folder, main_verb};
