//! Faults: why a line or a whole file is not read as go.mod text.

ghost use Rattle.std.specs.Prelude.{◌≡◌};
ghost use Rattle.gm_syntax_words.specs.ReadLine.{fault_at};
ghost use Rattle.gm_syntax_words.specs.declared.fault.LineSyntaxFault.TheVariants.{Memory};
ghost use Rattle.gm_syntax_words.specs.declared.fault.SyntaxFault.TheVariants.{NoMemory};

use std::alloc::{AllocError, AllocFailed};
use thiserror::Error;

/// What is wrong with a line (Go Modules Reference, "go.mod files"; docs/proof/SPEC.md says what the reference leaves
/// open).
#[derive(Clone, Copy, Debug, PartialEq, Eq, Error)]
pub enum SyntaxKind {
    /// A byte that isn't allowed there: outside strings and comments, a control byte other than tab and
    /// carriage return, or `{` or `}`; or a quote or grave accent directly after a bare word.
    #[error("a byte that isn't allowed here")]
    BadByte,
    /// A string that isn't terminated on its line.
    #[error("a string that isn't ended on its line")]
    OpenString,
    /// In a string in quotes, a backslash before a character other than a quote or a backslash.
    #[error("an escape other than \\\" and \\\\")]
    BadEscape,
    /// `/*` outside strings and comments.
    #[error("a block comment (/*)")]
    BlockComment,
    /// A `)` at the start of a line that closes no block, or that has more words after it.
    #[error("a ) that closes no block")]
    StrayClose,
    /// A `(` at the end of a line that opens no block.
    #[error("a ( that opens no block")]
    NestedOpen,
    /// A block that is still open at the end of the file.
    #[error("a block that isn't closed")]
    OpenBlock,
}

/// Why a line could not be read.
#[derive(Clone, Copy)]
pub enum LineSyntaxFault {
    /// Memory ran out.
    Memory,
    /// The line has this fault.
    Syntax(SyntaxKind),
}

impl LineSyntaxFault {
    /// The same fault as one of the file, at the line with this number.
    pub fn at_line(self, line: usize) -> SyntaxFault
        ensures { result ≡ fault_at line self }
    {
        match self {
            LineSyntaxFault::Memory => SyntaxFault::NoMemory,
            LineSyntaxFault::Syntax(kind) => SyntaxFault::Syntax { line, kind },
        }
    }
}

impl From<AllocError> for LineSyntaxFault {
    ghost from_gives = { λ _ e. e ≡ Memory };

    /// A failed allocation is `Memory`.
    fn from(_e: AllocError) -> LineSyntaxFault {
        LineSyntaxFault::Memory
    }
}

impl<T: Drop> From<AllocFailed<T>> for LineSyntaxFault {
    ghost from_gives = { λ _ e. e ≡ Memory };

    /// A failed allocation is `Memory`; the value that found no room is dropped.
    fn from(_e: AllocFailed<T>) -> LineSyntaxFault {
        LineSyntaxFault::Memory
    }
}

/// Why bytes could not be read as a document.
#[derive(Clone, Copy, Debug, PartialEq, Eq, Error)]
pub enum SyntaxFault {
    /// Memory ran out.
    #[error("out of memory")]
    NoMemory,
    /// There are more than 16,777,216 bytes.
    #[error("more than 16,777,216 bytes")]
    TooMany,
    /// The bytes are not UTF-8.
    #[error("not UTF-8")]
    NotUtf8,
    /// The line with this number, counted from 1, has this fault. A block that is never closed has the number
    /// of its opening line.
    #[error("line {line}: {kind}")]
    Syntax { line: usize, kind: SyntaxKind },
}

impl From<AllocError> for SyntaxFault {
    ghost from_gives = { λ _ e. e ≡ NoMemory };

    /// A failed allocation is `NoMemory`.
    fn from(_e: AllocError) -> SyntaxFault {
        SyntaxFault::NoMemory
    }
}

impl<T: Drop> From<AllocFailed<T>> for SyntaxFault {
    ghost from_gives = { λ _ e. e ≡ NoMemory };

    /// A failed allocation is `NoMemory`; the value that found no room is dropped.
    fn from(_e: AllocFailed<T>) -> SyntaxFault {
        SyntaxFault::NoMemory
    }
}
