//! Names of the operations on a go.mod file, and how their texts are cut.
//!
//! An operation is written as a name, `=` and an argument. `OperationKind::named` says what a name stands for. The
//! arguments, and what an operation does, are gm_file_edit's.
#![tactic(auto)]

mod kind;

pub use crate::kind::OperationKind;
