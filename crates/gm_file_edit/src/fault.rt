//! Why an operation is refused.
//!
//! Parsing and applying have separate fault types, because each has a refusal that the other doesn't.

ghost use Rattle.std.specs.Prelude.{◌≡◌};
ghost use Rattle.gm_file_edit.specs.declared.fault.EditFault.TheVariants as edit;
ghost use Rattle.gm_file_edit.specs.declared.fault.OpFault.TheVariants as op;

use std::alloc::{AllocError, AllocFailed};
use thiserror::Error;

/// Why a text could not be parsed as an operation.
#[derive(Clone, Copy, Debug, PartialEq, Eq, Error)]
pub enum OpFault {
    /// An allocation failed.
    #[error("out of memory")]
    NoMemory,
    /// The text is not an operation.
    #[error("not an operation")]
    Spelling,
}

impl From<AllocError> for OpFault {
    ghost from_gives = { λ _ fault. fault ≡ op.NoMemory };

    /// Reports a failed allocation as `NoMemory`.
    fn from(_error: AllocError) -> OpFault {
        OpFault::NoMemory
    }
}

impl<T: Drop> From<AllocFailed<T>> for OpFault {
    ghost from_gives = { λ _ fault. fault ≡ op.NoMemory };

    /// Reports a failed allocation as `NoMemory`. The value that could not be stored is dropped.
    fn from(_error: AllocFailed<T>) -> OpFault {
        OpFault::NoMemory
    }
}

/// Why an operation was not applied. The file is then unchanged.
#[derive(Clone, Copy, Debug, PartialEq, Eq, Error)]
pub enum EditFault {
    /// An allocation failed.
    #[error("out of memory")]
    NoMemory,
    /// A version doesn't fit its path. This concerns a version that the operation requires or excludes, or the one in
    /// the left side of its `replace`.
    #[error("the version doesn't fit the path")]
    Misfit,
}

impl From<AllocError> for EditFault {
    ghost from_gives = { λ _ fault. fault ≡ edit.NoMemory };

    /// Reports a failed allocation as `NoMemory`.
    fn from(_error: AllocError) -> EditFault {
        EditFault::NoMemory
    }
}
