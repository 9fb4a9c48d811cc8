//! Parsing a GOPROXY text: it is split into folders at the marks `,` and `|`.
//!
//! One pass over the characters collects folders and marks together, so the two lists can't disagree.

ghost use Rattle.std.specs.Prelude.{◌≡◌, ◌++◌, ℕ, List, [], map, true, false, IfOk, IfSome, IfNone, encode_utf8, string_bytes};
ghost use Rattle.std.specs.List.{list_all};
ghost use Rattle.gm_store_parts.specs.Proxies.{folders_in, folders_of, is_folder, is_proxy_mark, mark_at_byte, marks_in, marks_of};
ghost use Rattle.gm_store_parts.specs.Private.Cutting.{IsParsedPrefix};

use crate::fallback::proxy_list::{Mark, ProxyList};
use gm_name::NoMemory;
use std::alloc::Global;

/// Whether a text may be a folder of a proxy list: it isn't empty, `direct` or `off`. The go command reserves
/// these two words (Go Modules Reference, GOPROXY).
fn is_folder(text: &str) -> bool
    ensures { result ≡ is_folder text.now }
{
    !text.is_empty() && text != "direct" && text != "off"
}

/// Whether each of the texts may be a folder of a proxy list.
pub(crate) fn has_folders_only(folders: &[String]) -> bool
    ensures { result ≡ list_all is_folder (map string_bytes folders.now) }
{
    folders.iter().all(|folder| is_folder(folder.as_str()))
}

/// The mark that a character stands for, or `None` if it belongs to a folder's text.
fn mark_at_byte(c: char) -> Option<Mark>
    ensures some { IfSome result (λ mark. (is_proxy_mark c ≡ true) × (mark ≡ mark_at_byte c)) }
    ensures none { IfNone result (is_proxy_mark c ≡ false) }
{
    match c {
        ',' => Some(Mark::Comma),
        '|' => Some(Mark::Bar),
        _ => None,
    }
}

/// Consumes the next character of the text, and returns the folder in progress.
///
/// At a mark the folder is complete: it moves to `folders`, the mark to `marks`, and a new folder begins. Any
/// other character is appended to the folder. The only refusal is `NoMemory`.
fn parse_char(
    alloc: Global,
    folders: &mut Vec<String>,
    marks: &mut Vec<Mark>,
    folder: String,
    c: char,
) -> Result<String, NoMemory>
    ensures { IfOk result (λ next. (text : List ℕ) → IsParsedPrefix text folders.old.items marks.old.items folder
        → IsParsedPrefix (text ++ encode_utf8 c) folders.new.items marks.new.items next) }
{
    let Some(mark) = mark_at_byte(c) else {
        let mut folder = folder;
        folder.push(c)?;
        return Ok(folder);
    };
    folders.push(folder)?;
    marks.push(mark)?;
    Ok(String::new(alloc))
}

/// Consumes all characters of a text, and returns the folder in progress at its end. The only refusal is `NoMemory`.
fn parse_chars(
    alloc: Global,
    folders: &mut Vec<String>,
    marks: &mut Vec<Mark>,
    value: &str,
) -> Result<String, NoMemory>
    requires folders { folders.old.items ≡ [] }
    requires marks { marks.old.items ≡ [] }
    ensures { IfOk result (IsParsedPrefix value.now folders.new.items marks.new.items) }
{
    let mut folder = String::new(alloc);
    for c in value.chars() {
        folder = parse_char(alloc, folders, marks, folder, c)?;
    }
    Ok(folder)
}

/// Splits a text at its marks. Folders may be empty here; `has_folders_only` tests them afterwards.
///
/// The only refusal is `NoMemory`.
pub(crate) fn split_at_marks(alloc: Global, value: &str) -> Result<ProxyList, NoMemory>
    ensures folders { IfOk result (λ list. folders_in list ≡ folders_of value.now) }
    ensures marks { IfOk result (λ list. marks_in list ≡ marks_of value.now) }
{
    let mut folders = Vec::new(alloc);
    let mut marks = Vec::new(alloc);
    let folder = parse_chars(alloc, &mut folders, &mut marks, value)?;
    folders.push(folder)?;
    Ok(ProxyList { folders, marks })
}
