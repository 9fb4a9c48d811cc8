//! The faults of vertices, and their names in reports.

ghost use Rattle.std.specs.Prelude.{◌≡◌};
ghost use Rattle.gm_graph_files.specs.ClassWords.{class_word};

use gm_file::Misreading;
use thiserror::Error;

/// What is wrong with a vertex: the first of these that applies.
#[derive(Clone, Copy, Debug, PartialEq, Eq, Error)]
pub enum Class {
    /// The file would come from a proxy, and its path isn't fetchable. The store is not asked for such a file.
    #[error("not fetchable")]
    NotFetchable,
    /// There is no such file.
    #[error("missing")]
    Missing,
    /// The file has more than 16,777,216 bytes.
    #[error("too long")]
    TooLong,
    /// There is a go.sum, the file comes from a proxy, and the go.sum has no hash for it.
    #[error("no sum")]
    NoSum,
    /// The go.sum has a different hash for the file, even if it has the right one too.
    #[error("the sum differs")]
    SumDiffers,
    /// The bytes can't be read as a dependency's go.mod file.
    #[error("line {line}: {kind}")]
    Malformed {
        /// The lowest line with a fault, counted from 1, or 0 if the whole file is affected.
        line: usize,
        /// What is wrong there.
        kind: Misreading,
    },
    /// The file declares no path, or one that is neither the vertex's own path nor, if another module replaces the
    /// vertex, that module's path. In a replacing folder any path is accepted, and so is no path.
    #[error("wrong path")]
    WrongPath,
}

impl Class {
    /// The name of the class, as in reports, without line and kind. It takes no memory.
    pub fn word(self) -> &'static str
        ensures { result.now ≡ class_word self }
    {
        match self {
            Class::NotFetchable => "NotFetchable",
            Class::Missing => "Missing",
            Class::TooLong => "TooLong",
            Class::NoSum => "NoSum",
            Class::SumDiffers => "SumDiffers",
            Class::Malformed { .. } => "Malformed",
            Class::WrongPath => "WrongPath",
        }
    }
}
