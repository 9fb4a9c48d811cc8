//! Edits of a main module's go.mod file: the flags of `go mod edit` as operations.
//!
//! `go help mod edit` says what the flags do. An operation is written as a name, `=` and an argument. `Op::parse`
//! parses one, and `Apply::apply` applies it to a parsed file. An `Editor` applies several in turn to the lines of a
//! file, without reading the file again between them. Entries that an operation doesn't target stay as they are, and so
//! do their comments and blocks.
//!
//! For example, `require=example.com/b@v1.3.0` writes `v1.3.0` into the first requirement of `example.com/b` and
//! removes the later ones. If nothing requires `example.com/b`, it adds a requirement after the last requirement in
//! the file, in the same block if that one is in a block. If there are no requirements, it adds one at the end.
#![tactic(auto)]

mod adding;
mod apply;
mod applying;
mod editor;
mod fault;
mod keyed_lines;
mod keys;
mod marking;
mod new_words;
mod op;
mod packing;
mod part;
mod renewing;
mod subject;

pub use crate::apply::Apply;
pub use crate::editor::Editor;
pub use crate::fault::{EditFault, OpFault};
pub use crate::op::Op;
pub use gm_operation::OperationKind;
