//! Why a call gives no value, and the line that says so. Calls go to functions of several crates, each with its own
//! faults, and `?` turns these into one type.

use gm_file::{BytesFault, FileFault};
use gm_file_edit::{EditFault, OpFault};
use gm_name::{EscapeFault, PathFault, VersionFault};
use gm_store_sums::SumFault;
use gm_syntax::SyntaxFault;
use std::alloc::{AllocError, Global};

/// Why a call gives no value.
#[derive(Clone, Copy)]
pub(crate) enum CallFault {
    /// Memory ran out.
    NoMemory,
    /// There is no such call, or the case has no file of that name.
    NoCall,
    /// An argument is wrong, as this word says.
    Argument(&'static str),
    /// The line of this number in a file can't be read, as this word says. Line 0 is the whole file.
    Line(usize, &'static str),
}

impl CallFault {
    /// The line that names it, or none if there is no such call.
    pub(crate) fn line(self, alloc: Global) -> Result<Option<String>, AllocError> {
        match self {
            CallFault::NoMemory => Err(AllocError),
            CallFault::NoCall => Ok(None),
            CallFault::Argument(word) => Ok(Some(format!(in alloc; "{word}\n")?)),
            CallFault::Line(line, word) => Ok(Some(format!(in alloc; "{line} {word}\n")?)),
        }
    }
}

impl From<AllocError> for CallFault {
    fn from(_error: AllocError) -> CallFault {
        CallFault::NoMemory
    }
}

impl From<PathFault> for CallFault {
    fn from(fault: PathFault) -> CallFault {
        match fault {
            PathFault::NoMemory => CallFault::NoMemory,
            PathFault::BadPath => CallFault::Argument("BadPath"),
        }
    }
}

impl From<VersionFault> for CallFault {
    fn from(fault: VersionFault) -> CallFault {
        match fault {
            VersionFault::NoMemory => CallFault::NoMemory,
            VersionFault::BadVersion => CallFault::Argument("BadVersion"),
            VersionFault::NotCanonical => CallFault::Argument("NotCanonical"),
        }
    }
}

impl From<EscapeFault> for CallFault {
    fn from(fault: EscapeFault) -> CallFault {
        match fault {
            EscapeFault::NoMemory => CallFault::NoMemory,
            EscapeFault::BadEscape => CallFault::Argument("BadEscape"),
        }
    }
}

impl From<BytesFault> for CallFault {
    fn from(fault: BytesFault) -> CallFault {
        match fault {
            BytesFault::NoMemory => CallFault::NoMemory,
            BytesFault::Misread { line, kind } => CallFault::Line(line, kind.word()),
        }
    }
}

impl From<SyntaxFault> for CallFault {
    fn from(fault: SyntaxFault) -> CallFault {
        CallFault::from(BytesFault::from(fault))
    }
}

impl From<FileFault> for CallFault {
    fn from(fault: FileFault) -> CallFault {
        CallFault::from(BytesFault::from(fault))
    }
}

impl From<SumFault> for CallFault {
    fn from(fault: SumFault) -> CallFault {
        match fault {
            SumFault::NoMemory => CallFault::NoMemory,
            SumFault::TooMany => CallFault::Line(0, "TooMany"),
            SumFault::BadSum { line } => CallFault::Line(line, "BadSum"),
        }
    }
}

impl From<OpFault> for CallFault {
    fn from(fault: OpFault) -> CallFault {
        match fault {
            OpFault::NoMemory => CallFault::NoMemory,
            OpFault::Spelling => CallFault::Argument("Spelling"),
        }
    }
}

impl From<EditFault> for CallFault {
    fn from(fault: EditFault) -> CallFault {
        match fault {
            EditFault::NoMemory => CallFault::NoMemory,
            EditFault::Misfit => CallFault::Argument("Misfit"),
        }
    }
}
