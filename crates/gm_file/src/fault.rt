//! The faults of directives, lines and files.

ghost use Rattle.std.specs.Prelude.{◌≡◌};
ghost use Rattle.gm_file.specs.Views.{of_pair_fault, of_path_fault, of_version_fault};
ghost use Rattle.gm_file.specs.Private.Reading.{file_fault_at};
ghost use Rattle.gm_file.specs.declared.fault.FileFault.TheVariants as file;
ghost use Rattle.gm_file.specs.declared.fault.LineFault.TheVariants as line;

use gm_name::{PathFault, VersionFault};
use gm_name_table::PairFault;
use std::alloc::{AllocError, AllocFailed};
use thiserror::Error;

/// The kind of a directive's fault. If a line has several, the first in this order is reported.
#[derive(Clone, Copy, Debug, PartialEq, Eq, Error)]
pub enum DirectiveKind {
    /// An entry or the start of a block has an unknown verb. A verb in quotes is unknown. Only strict reading reports
    /// this.
    #[error("unknown verb")]
    UnknownVerb,
    /// An entry has the wrong number or kind of arguments, or a block opens for `go`. Since such an entry has no
    /// directive, no other kind is reported with it.
    #[error("wrong arguments")]
    WrongArguments,
    /// A module path is invalid.
    #[error("not a module path")]
    BadPath,
    /// A version is invalid or not canonical.
    #[error("not a canonical version")]
    BadVersion,
    /// A version doesn't fit its path.
    #[error("the version doesn't fit the path")]
    Misfit,
    /// A second `module` or `go` directive.
    #[error("a second module or go directive")]
    Repeated,
    /// A main file has no `module`. This is a fault of the whole file, at line 0, and is reported only if there is no
    /// other.
    #[error("no module")]
    NoModule,
    /// An earlier `replace` has the same left side and a different right side.
    #[error("conflicts with an earlier replace")]
    ConflictingReplace,
    /// A go version is invalid.
    #[error("not a go version")]
    BadGo,
}

/// Why a document was not read as a file.
#[derive(Clone, Copy, Debug, PartialEq, Eq, Error)]
pub enum FileFault {
    /// Memory ran out.
    #[error("out of memory")]
    NoMemory,
    /// The first line with a fault, counted from 1, and the first kind of its faults. Line 0 stands for the whole
    /// file.
    #[error("line {line}: {kind}")]
    Directive { line: usize, kind: DirectiveKind },
}

/// Why a line was not read.
#[derive(Clone, Copy)]
pub enum LineFault {
    /// Memory ran out.
    NoMemory,
    /// The first kind of the line's faults.
    Kind(DirectiveKind),
}

impl LineFault {
    /// The same fault as one of the file, at the line with this number.
    pub(crate) fn at_line(self, line: usize) -> FileFault
        ensures { result ≡ file_fault_at line self }
    {
        match self {
            LineFault::NoMemory => FileFault::NoMemory,
            LineFault::Kind(kind) => FileFault::Directive { line, kind },
        }
    }
}

/// An allocation that failed is `NoMemory`.
impl From<AllocError> for LineFault {
    ghost from_gives = { λ _ fault. fault ≡ line.NoMemory };

    fn from(_error: AllocError) -> LineFault {
        LineFault::NoMemory
    }
}

/// A growth that failed is `NoMemory`. The value that found no room is dropped.
impl<T: Drop> From<AllocFailed<T>> for LineFault {
    ghost from_gives = { λ _ fault. fault ≡ line.NoMemory };

    fn from(_error: AllocFailed<T>) -> LineFault {
        LineFault::NoMemory
    }
}

/// A text that is no module path is a `BadPath`.
impl From<PathFault> for LineFault {
    ghost from_gives = { λ path fault. fault ≡ of_path_fault path };

    fn from(fault: PathFault) -> LineFault {
        match fault {
            PathFault::NoMemory => LineFault::NoMemory,
            PathFault::BadPath => LineFault::Kind(DirectiveKind::BadPath),
        }
    }
}

/// A text that is no version, or isn't canonical, is a `BadVersion`.
impl From<VersionFault> for LineFault {
    ghost from_gives = { λ version fault. fault ≡ of_version_fault version };

    fn from(fault: VersionFault) -> LineFault {
        match fault {
            VersionFault::NoMemory => LineFault::NoMemory,
            VersionFault::BadVersion | VersionFault::NotCanonical => {
                LineFault::Kind(DirectiveKind::BadVersion)
            }
        }
    }
}

/// Two texts are refused for the path, for the version, or because they don't fit.
impl From<PairFault> for LineFault {
    ghost from_gives = { λ pair fault. fault ≡ of_pair_fault pair };

    fn from(fault: PairFault) -> LineFault {
        match fault {
            PairFault::NoMemory => LineFault::NoMemory,
            PairFault::BadPath => LineFault::Kind(DirectiveKind::BadPath),
            PairFault::BadVersion => LineFault::Kind(DirectiveKind::BadVersion),
            PairFault::Misfit => LineFault::Kind(DirectiveKind::Misfit),
        }
    }
}

/// An allocation that failed is `NoMemory`.
impl From<AllocError> for FileFault {
    ghost from_gives = { λ _ fault. fault ≡ file.NoMemory };

    fn from(_error: AllocError) -> FileFault {
        FileFault::NoMemory
    }
}

/// A growth that failed is `NoMemory`. The value that found no room is dropped.
impl<T: Drop> From<AllocFailed<T>> for FileFault {
    ghost from_gives = { λ _ fault. fault ≡ file.NoMemory };

    fn from(_error: AllocFailed<T>) -> FileFault {
        FileFault::NoMemory
    }
}
