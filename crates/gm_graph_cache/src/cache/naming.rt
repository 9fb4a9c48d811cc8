//! Which file a vertex has.

ghost use Rattle.std.specs.Prelude.{◌≡◌, ℕ, List, IfOk, Some};
ghost use Rattle.gm_file.specs.Views.{right_view};
ghost use Rattle.gm_store_parts.specs.Asked.{name_of};
ghost use Rattle.gm_graph_files.specs.Reading.{file_named, file_of, is_askable as may_be_asked};

use gm_file::{MainModule, Right};
use gm_name::{ModVer, NoMemory};
use gm_store::FileName;
use std::alloc::Global;

/// The name of the file of a vertex: that of its replacement, if there is one, or its own.
pub(crate) fn file_name(alloc: Global, main: &MainModule, x: &ModVer) -> Result<FileName, NoMemory>
    ensures { IfOk result (λ name. name_of name ≡ file_of main.now x.now) }
{
    match main.replacement(x) {
        None => Ok(FileName::Mod(x.path().copy(alloc)?, x.version().copy(alloc)?)),
        Some(right) => right_name(alloc, right),
    }
}

/// The name of the file of a replacement.
pub(crate) fn right_name(alloc: Global, right: &Right) -> Result<FileName, NoMemory>
    ensures { (x : List ℕ × List ℕ) → IfOk result (λ name. name_of name ≡ file_named x (Some (right_view right.now))) }
{
    match right {
        Right::Folder(text) => Ok(FileName::Folder(String::from_str(alloc, text.as_str())?)),
        Right::Module(path, version) => {
            Ok(FileName::Mod(path.copy(alloc)?, version.copy(alloc)?))
        }
    }
}

/// Whether the store may be asked for a file. Proxies serve only fetchable paths.
pub(crate) fn is_askable(name: &FileName) -> bool
    ensures { result ≡ may_be_asked (name_of name.now) }
{
    match name {
        FileName::Mod(path, _) => path.is_fetchable(),
        FileName::Folder(_) | FileName::List(_) => true,
    }
}
