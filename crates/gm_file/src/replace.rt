//! The plain types of replacements and retracted intervals.

ghost use Rattle.std.specs.Prelude.{◌≡◌, IfOk};
ghost use Rattle.gm_file.specs.Faults.{is_same_right};
ghost use Rattle.gm_file.specs.Views.{right_view};

use gm_name::{ModPath, ModVersion};
use std::alloc::{AllocError, Global};

/// The right side of a `replace`: what is used instead of the module (Go Modules Reference, replace directive).
#[derive(Debug, Drop, PartialEq, Eq)]
pub enum Right {
    /// A folder, as written in the file: `.`, `..`, or a text that begins with `./`, `../` or `/`.
    Folder(String),
    /// A module at a canonical version, which need not fit the path.
    Module(ModPath, ModVersion),
}

impl Right {
    /// An equal right side. The only refusal is `AllocError`, when memory runs out.
    pub fn copy(&self, alloc: Global) -> Result<Right, AllocError>
        ensures { IfOk result (λ right. right_view right ≡ right_view self.now) }
    {
        match self {
            Right::Folder(text) => Ok(Right::Folder(String::from_str(alloc, text.as_str())?)),
            Right::Module(path, version) => {
                let path = path.copy(alloc)?;
                Ok(Right::Module(path, version.copy(alloc)?))
            }
        }
    }

    /// Whether both are folders with the same text, or the same module at the same version. Folders are not resolved:
    /// `./x` and `./x/` differ.
    pub(crate) fn is_same(&self, other: &Right) -> bool
        ensures { result ≡ is_same_right (right_view self.now) (right_view other.now) }
    {
        *self == *other
    }
}

/// A `replace`: a module, or one version of it, and its replacement (Go Modules Reference, replace directive).
#[derive(Drop, PartialEq, Eq)]
pub struct Replace {
    /// The path of the replaced module.
    pub left: ModPath,
    /// The version that is replaced. `None` replaces every version that has no `replace` of its own.
    pub version: Option<ModVersion>,
    /// The replacement.
    pub right: Right,
}

/// An interval of retracted versions, by precedence (Go Modules Reference, retract directive). Both ends belong to it.
/// It is empty if `high` precedes `low`.
#[derive(Drop, PartialEq, Eq)]
pub struct Interval {
    /// The lowest retracted version.
    pub low: ModVersion,
    /// The highest retracted version.
    pub high: ModVersion,
}
