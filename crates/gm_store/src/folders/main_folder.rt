//! The folder of the main file, taken from the file's name.
//!
//! The folders that `replace` directives name are relative to it.

ghost use Rattle.std.specs.Prelude.{IfOk, string_bytes};
ghost use Rattle.gm_store.specs.Relative.{IsFolderOf};

use gm_name::NoMemory;
use std::alloc::Global;

/// The folder that a file is in, taken from its name: the text before the last `/`. It is `/` if that text is
/// empty, and `.` if the name has no `/`. So `a/go.mod` gives `a`, `/go.mod` gives `/`, and `go.mod` gives `.`.
///
/// The only refusal is `NoMemory`.
pub fn folder_of(alloc: Global, file: &str) -> Result<String, NoMemory>
    ensures { IfOk result (λ folder. IsFolderOf file.now (string_bytes folder)) }
{
    let folder = String::from_str(alloc, folder_text(file))?;
    Ok(folder)
}

/// The folder's text, borrowed from the name where it occurs there.
fn folder_text(file: &str) -> &str
    ensures { IsFolderOf file.now result.now }
{
    match file.rfind('/') {
        None => ".",
        Some(0) => "/",
        Some(at) => &file[..at],
    }
}
