//! The rule of the GOPROXY fallback: whether a lookup stops at a folder or falls back to the next one.
//!
//! The rule is one function without state, so it can be compared with the Go Modules Reference case by case.

ghost use Rattle.std.specs.Prelude.{◌≡◌};
ghost use Rattle.gm_store_parts.specs.Steps.{result_of, step_of};

use crate::fallback::proxy_list::Mark;
use crate::looked::Looked;

/// What happens after a lookup in one folder.
#[derive(Clone, Copy, Debug)]
pub enum Next {
    /// Stop: this folder's answer is the answer to the request.
    Take,
    /// Fall back to the next folder.
    Go,
    /// Stop: the request is refused, because the device failed.
    Fail,
}

/// What happens after a lookup in one folder. `mark` is the mark after this folder, or `None` for the last folder
/// (Go Modules Reference, GOPROXY):
///
/// | result | `,` follows | `\|` follows | last folder |
/// |---|---|---|---|
/// | `Found`, `TooLong` | `Take` | `Take` | `Take` |
/// | `Absent` | `Go` | `Go` | `Take` |
/// | `Failed` | `Fail` | `Go` | `Fail` |
pub fn step(looked: &Looked, mark: Option<Mark>) -> Next
    ensures { result ≡ step_of (result_of looked.now) mark }
{
    match (looked, mark) {
        (Looked::Absent, Some(_)) | (Looked::Failed, Some(Mark::Bar)) => Next::Go,
        (Looked::Failed, _) => Next::Fail,
        _ => Next::Take,
    }
}
