//! Paths of files in a file system: which path a lookup opens.
//!
//! Module files come from the proxy folders. The `go.mod` of a local folder doesn't: its path is relative to the
//! main file's folder (Go Modules Reference, `replace` directive).

ghost use Rattle.std.specs.Prelude.{◌≡◌, ◌<◌, ◌++◌, ℕ, List, OnOk, length, map, string_bytes};
ghost use Rattle.gm_store_parts.specs.Asked.{name_of};
ghost use Rattle.gm_store.specs.Placed.{is_absolute, lookup_path_text, placed_text};
ghost use Rattle.gm_store.specs.FolderLookups.{count_for};

use crate::folders::relative_path::{push_folder, push_relative};
use gm_name::NoMemory;
use gm_store_parts::FileName;

/// Sets a text to the path that is opened to look up a name in folder number `folder`, counted from 0.
///
/// For a module's file it is below that proxy folder. For the `go.mod` of a local folder it is relative to `main`,
/// unless the local folder's text is absolute. The only refusal is `NoMemory`, which leaves part of a path.
pub(crate) fn set_lookup_path(
    place: &mut String,
    main: &str,
    proxies: &[String],
    folder: usize,
    name: &FileName,
) -> Result<(), NoMemory>
    requires { folder < count_for (length proxies.now) (name_of name.now) }
    ensures { OnOk result (string_bytes place.new
        ≡ lookup_path_text main.now (map string_bytes proxies.now) folder (name_of name.now)) }
{
    place.clear();
    push_base(place, main, proxies, folder, name)?;
    push_relative(place, name)
}

/// Appends the folder that a name's path is relative to in the lookup in folder number `folder`: nothing for a local
/// folder whose text is absolute. The only refusal is `NoMemory`.
fn push_base(
    place: &mut String,
    main: &str,
    proxies: &[String],
    folder: usize,
    name: &FileName,
) -> Result<(), NoMemory>
    requires { folder < count_for (length proxies.now) (name_of name.now) }
    ensures { OnOk result ((text : List ℕ) → string_bytes place.new ++ text
        ≡ string_bytes place.old
        ++ placed_text main.now (map string_bytes proxies.now) folder (name_of name.now) text) }
{
    match name {
        FileName::Folder(text) if is_absolute(text.as_str()) => Ok(()),
        FileName::Folder(_) => push_folder(place, main),
        _ => push_folder(place, proxies[folder].as_str()),
    }
}

/// Whether a path is absolute.
fn is_absolute(text: &str) -> bool
    ensures { result ≡ is_absolute text.now }
{
    let bytes = text.as_bytes();
    !bytes.is_empty() && bytes[0] == b'/'
}
