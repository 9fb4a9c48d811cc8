//! Why a text is not a file of cases.

use std::alloc::{AllocError, AllocFailed};

/// Why a text is not a file of cases.
#[derive(Clone, Copy)]
pub enum CaseFault {
    /// Memory ran out.
    NoMemory,
    /// The line of this number is invalid: what is wrong with it, as one of the texts below.
    Line(usize, &'static str),
}

impl From<AllocError> for CaseFault {
    fn from(_error: AllocError) -> CaseFault {
        CaseFault::NoMemory
    }
}

impl<T: Drop> From<AllocFailed<T>> for CaseFault {
    fn from(_error: AllocFailed<T>) -> CaseFault {
        CaseFault::NoMemory
    }
}

/// Of a line before the first title that is neither blank nor a remark.
pub(crate) const BEFORE_TITLE: &str = "stands before the first title";

/// Of a line among commands that has none of the marks of their lines.
pub(crate) const NO_MARK: &str = "begins with no mark of a case";

/// Of a line that belongs to a command, before any command of its case.
pub(crate) const BEFORE_COMMAND: &str = "stands before the first command of its case";

/// Of words in which a quote or an escape is invalid, and of none.
pub(crate) const BAD_WORDS: &str = "has words that can't be read";

/// Of an escape outside words.
pub(crate) const BAD_ESCAPE: &str = "has an invalid escape";

/// Of a status that is no number from 0 to 255.
pub(crate) const BAD_STATUS: &str = "is no exit status";

/// Of what another line said of the same command or case, as a second status.
pub(crate) const SAID_BEFORE: &str = "says again what a line above says";

/// Of a line about a command line after a call.
pub(crate) const UNDER_CALL: &str = "stands under a call, of which only the output is compared";

/// Of a header with an unknown word, or with a name that is not the shortest spelling of a place.
pub(crate) const BAD_HEADER: &str = "is no header of a file";

/// Of a line that is to be written several times.
pub(crate) const BAD_COUNT: &str = "has a count that isn't a number from 1 to 16777217";

/// Of the line that says at which sizes a case runs.
pub(crate) const BAD_SIZES: &str =
    "has sizes that can't be read, or that the title above doesn't name";

/// Of a place of a size in a case that runs at no sizes, or of one that isn't known.
pub(crate) const NO_SIZE: &str = "has a size that its case doesn't have";

/// Of the title of a case that has no command.
pub(crate) const NO_COMMAND: &str = "is the title of a case without a command";

/// Of the first line of a text that has no case.
pub(crate) const NO_CASE: &str = "begins a file without a case";

/// Of a line of a file that may be a mistyped title or header. An escape spells such a line.
pub(crate) const LIKE_MARK: &str = "begins like a title or a header but is neither";

/// Of a line below the header of a folder, a link or a copy.
pub(crate) const NO_CONTENT: &str = "stands under the header of a folder or a link";

/// Of the header of a file that is filled, if not exactly one line is below it.
pub(crate) const SEVERAL_LINES: &str = "is one of several lines of a file that is filled";
