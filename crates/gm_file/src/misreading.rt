//! Why bytes can't be read as a go.mod file.
//!
//! The names of all kinds are here alone, so that reports on the main file and on dependencies use the same ones.

ghost use Rattle.std.specs.Prelude.{◌≡◌};
ghost use Rattle.gm_file.specs.BytesFaults.{fault_by_file, fault_by_syntax};
ghost use Rattle.gm_file.specs.Misreading.{directive_word, misreading_word, syntax_word};
ghost use Rattle.gm_file.specs.declared.misreading.BytesFault.TheVariants as fault;

use crate::fault::{DirectiveKind, FileFault};
use gm_syntax::{SyntaxFault, SyntaxKind};
use std::alloc::AllocError;
use thiserror::Error;

/// Why bytes can't be read as a go.mod file.
#[derive(Clone, Copy, Debug, PartialEq, Eq, Error)]
pub enum Misreading {
    /// There are more than 16,777,216 bytes. No answer of a store has that many.
    #[error("more than 16,777,216 bytes")]
    TooMany,
    /// The bytes aren't UTF-8.
    #[error("not UTF-8")]
    NotUtf8,
    /// The line has a lexical or block error.
    #[error("{0}")]
    Syntax(SyntaxKind),
    /// The line's directive is invalid.
    #[error("{0}")]
    Directive(DirectiveKind),
}

/// The name of a lexical or block error, as in reports.
fn syntax_word(kind: SyntaxKind) -> &'static str
    ensures { result.now ≡ syntax_word kind }
{
    match kind {
        SyntaxKind::BadByte => "BadByte",
        SyntaxKind::OpenString => "OpenString",
        SyntaxKind::BadEscape => "BadEscape",
        SyntaxKind::BlockComment => "BlockComment",
        SyntaxKind::StrayClose => "StrayClose",
        SyntaxKind::NestedOpen => "NestedOpen",
        SyntaxKind::OpenBlock => "OpenBlock",
    }
}

/// The name of an invalid directive's error, as in reports.
fn directive_word(kind: DirectiveKind) -> &'static str
    ensures { result.now ≡ directive_word kind }
{
    match kind {
        DirectiveKind::UnknownVerb => "UnknownVerb",
        DirectiveKind::WrongArguments => "WrongArguments",
        DirectiveKind::BadPath => "BadPath",
        DirectiveKind::BadVersion => "BadVersion",
        DirectiveKind::Misfit => "Misfit",
        DirectiveKind::Repeated => "Repeated",
        DirectiveKind::NoModule => "NoModule",
        DirectiveKind::ConflictingReplace => "ConflictingReplace",
        DirectiveKind::BadGo => "BadGo",
    }
}

impl Misreading {
    /// The name of the kind, as in reports. It takes no memory.
    pub fn word(self) -> &'static str
        ensures { result.now ≡ misreading_word self }
    {
        match self {
            Misreading::TooMany => "TooMany",
            Misreading::NotUtf8 => "NotUtf8",
            Misreading::Syntax(kind) => syntax_word(kind),
            Misreading::Directive(kind) => directive_word(kind),
        }
    }
}

/// Why bytes were not read as a file.
#[derive(Clone, Copy, Debug, PartialEq, Eq, Error)]
pub enum BytesFault {
    /// Memory ran out.
    #[error("out of memory")]
    NoMemory,
    /// The bytes can't be read. A fault of the text, on whichever line it is, comes before those of directives.
    #[error("line {line}: {kind}")]
    Misread {
        /// The first line with such a fault, counted from 1, or 0 if the whole file is affected.
        line: usize,
        /// What is wrong there.
        kind: Misreading,
    },
}

impl From<SyntaxFault> for BytesFault {
    ghost from_gives = { λ syntax fault. fault ≡ fault_by_syntax syntax };

    /// The same fault, of the text.
    fn from(fault: SyntaxFault) -> BytesFault {
        match fault {
            SyntaxFault::NoMemory => BytesFault::NoMemory,
            SyntaxFault::TooMany => misread(0, Misreading::TooMany),
            SyntaxFault::NotUtf8 => misread(0, Misreading::NotUtf8),
            SyntaxFault::Syntax { line, kind } => misread(line, Misreading::Syntax(kind)),
        }
    }
}

impl From<FileFault> for BytesFault {
    ghost from_gives = { λ file fault. fault ≡ fault_by_file file };

    /// The same fault, of a directive.
    fn from(fault: FileFault) -> BytesFault {
        match fault {
            FileFault::NoMemory => BytesFault::NoMemory,
            FileFault::Directive { line, kind } => misread(line, Misreading::Directive(kind)),
        }
    }
}

/// An allocation that failed is `NoMemory`.
impl From<AllocError> for BytesFault {
    ghost from_gives = { λ _ told. told ≡ fault.NoMemory };

    fn from(_error: AllocError) -> BytesFault {
        BytesFault::NoMemory
    }
}

/// The fault of bytes that can't be read.
fn misread(line: usize, kind: Misreading) -> BytesFault
    ensures { result ≡ BytesFault.Misread line kind }
{
    BytesFault::Misread { line, kind }
}
