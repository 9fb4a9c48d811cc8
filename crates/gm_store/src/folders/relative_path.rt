//! Paths of files below a folder, in the layout that the GOPROXY protocol gives to a module proxy.
//!
//! Paths are escaped, so that they don't depend on whether a file system distinguishes upper and lower case.

ghost use Rattle.std.specs.Prelude.{◌≡◌, ◌++◌, ℕ, List, IfOk, OnOk, string_bytes};
ghost use Rattle.gm_store_parts.specs.Asked.{list_file, mod_file, name_of};
ghost use Rattle.gm_store.specs.Relative.{LeadsBelow, StaysBelow, below, ends_in_slash, relative_text};

use gm_name::{ModPath, ModVersion, NoMemory, push_escaped};
use gm_store_parts::FileName;
use std::alloc::Global;

/// The room that is made for a path at first, in bytes. Most paths are shorter, and take one allocation.
const ROOM: usize = 128;

/// The path of a file: `PATH/@v/VERSION.mod` or `PATH/@v/list` below a proxy folder, with path and version
/// escaped, and `FOLDER/go.mod` for a local folder (Go Modules Reference, GOPROXY protocol). No second slash is
/// added if `FOLDER` ends in one.
///
/// The path of a module's file has no empty, `.` or `..` element, so it stays below the proxy folder whatever
/// names a file requires. The path for a local folder may lead anywhere. The only refusal is `NoMemory`.
///
/// For example, `example.com/A` at `v1.0.0` gives `example.com/!a/@v/v1.0.0.mod`.
pub fn relative_name(alloc: Global, name: &FileName) -> Result<String, NoMemory>
    ensures text { IfOk result (λ text. string_bytes text ≡ relative_text (name_of name.now)) }
    ensures inside { IfOk result (λ text. StaysBelow (name_of name.now) (string_bytes text)) }
{
    let mut text = String::with_capacity(alloc, ROOM)?;
    push_relative(&mut text, name)?;
    Ok(text)
}

/// Appends the path of a file, as `relative_name` gives it, to a text. The only refusal is `NoMemory`.
pub(crate) fn push_relative(place: &mut String, name: &FileName) -> Result<(), NoMemory>
    ensures text { OnOk result (string_bytes place.new ≡ string_bytes place.old ++ relative_text (name_of name.now)) }
    ensures inside { OnOk result (StaysBelow (name_of name.now) (relative_text (name_of name.now))) }
{
    match name {
        FileName::Mod(path, version) => push_mod_file(place, path, version),
        FileName::List(path) => push_list_file(place, path),
        FileName::Folder(folder) => {
            push_folder(place, folder.as_str())?;
            place.push_str("go.mod")
        }
    }
}

/// Appends the path of a module's `.mod` file below a proxy folder. The only refusal is `NoMemory`.
fn push_mod_file(place: &mut String, path: &ModPath, version: &ModVersion) -> Result<(), NoMemory>
    ensures text { OnOk result (string_bytes place.new
        ≡ string_bytes place.old ++ relative_text (mod_file path.now version.now)) }
    ensures inside { OnOk result (LeadsBelow (relative_text (mod_file path.now version.now))) }
{
    let (path, version) = (path.as_str(), version.as_str());
    push_escaped(place, path)?;
    place.push_str("/@v/")?;
    push_escaped(place, version)?;
    place.push_str(".mod")
}

/// Appends the path of a module's list file below a proxy folder. The only refusal is `NoMemory`.
fn push_list_file(place: &mut String, path: &ModPath) -> Result<(), NoMemory>
    ensures text { OnOk result (string_bytes place.new ≡ string_bytes place.old ++ relative_text (list_file path.now)) }
    ensures inside { OnOk result (LeadsBelow (relative_text (list_file path.now))) }
{
    let path = path.as_str();
    push_escaped(place, path)?;
    place.push_str("/@v/list")
}

/// Appends a folder's text, and a slash if it doesn't end in one, so that a path appended next is below the folder.
/// The only refusal is `NoMemory`.
pub(crate) fn push_folder(place: &mut String, folder: &str) -> Result<(), NoMemory>
    ensures { OnOk result ((rest : List ℕ)
        → string_bytes place.new ++ rest ≡ string_bytes place.old ++ below folder.now rest) }
{
    place.push_str(folder)?;
    if ends_in_slash(folder) {
        return Ok(());
    }
    place.push_str("/")?;
    Ok(())
}

/// Whether a text ends in a slash.
fn ends_in_slash(text: &str) -> bool
    ensures { result ≡ ends_in_slash text.now }
{
    let bytes = text.as_bytes();
    !bytes.is_empty() && bytes[bytes.len() - 1] == b'/'
}
