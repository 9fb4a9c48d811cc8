//! Reading the two sides of a `replace` (Go Modules Reference, replace directive). Both sides are split into texts
//! first, since wrong arguments on either side come before the faults of paths and versions.

ghost use Rattle.std.specs.Prelude.{◌≡◌, [], length, not, take_while, IfNone, IfSome, Some};
ghost use Rattle.std.specs.Option.{option_and_then, option_map};
ghost use Rattle.std.specs.List.{after_first, before_first};
ghost use Rattle.std.specs.String.{string_bytes};
ghost use Rattle.gm_syntax_words.specs.Tokens.{words_of};
ghost use Rattle.gm_file.specs.Directives.{folder_right, is_arrow, left_of, left_with, left_without, module_right, pair, replacing, replacing_of, right_of, Folder, Module};
ghost use Rattle.gm_file.specs.Private.Reading.{KeepsNames, IsPartRead, left_text_view, right_text_view};
ghost use Rattle.gm_file.specs.Values.{argument, both};
ghost use Rattle.gm_file.specs.Faults.{does_left_fit, left_version_kinds};
ghost use Rattle.gm_file.specs.Reading.{replacing_kinds};
ghost use Rattle.gm_file.specs.Views.{replace_view};

use crate::fault::{DirectiveKind, LineFault};
use crate::part::{argument, read_path, read_version};
use crate::replace::{Replace, Right};
use crate::verb::{is_arrow, is_folder};
use gm_name::{ModPath, ModVersion, fits};
use gm_name_table::KnownNames;
use gm_syntax::Token;
use std::alloc::Global;

/// The texts of the left side: the module that is replaced.
#[derive(Drop)]
pub(crate) struct LeftText {
    /// The path.
    path: String,
    /// The version, if only that version is replaced.
    version: Option<String>,
}

/// The texts of the right side: the replacement.
#[derive(Drop)]
pub(crate) enum RightText {
    /// A folder.
    Folder(String),
    /// A path and a version.
    Module(String, String),
}

/// The number of words before the first arrow, or of all words if there is no arrow.
fn words_before_arrow(words: &[Token]) -> usize
    ensures { result ≡ length (take_while (λ t. not (is_arrow t.word)) words.now) }
{
    words.iter().take_while(|word| !is_arrow(*word)).count()
}

/// The words before the first arrow and those after it. `None` if there is no arrow.
fn split_at_arrow<'w, 'a>(words: &'w [Token<'a>]) -> Option<(&'w [Token<'a>], &'w [Token<'a>])>
    ensures before { IfSome result (λ sides. words_of sides.0.now ≡ before_first is_arrow (words_of words.now)) }
    ensures after { IfSome result (λ sides. words_of sides.1.now ≡ after_first is_arrow (words_of words.now)) }
    ensures none { IfNone result (after_first is_arrow (words_of words.now) ≡ []) }
{
    match words.split_at(words_before_arrow(words)) {
        (before, [_, after @ ..]) => Some((before, after)),
        (_, []) => None,
    }
}

/// The text of a left side without a version.
fn left_path(alloc: Global, path: &Token) -> Result<LeftText, LineFault>
    ensures { IsPartRead left_text_view DirectiveKind.WrongArguments (λ _. [])
        (option_map left_without (argument path.now.word)) result }
{
    let path = argument(alloc, path)?;
    Ok(LeftText {
        path,
        version: None,
    })
}

/// The texts of a left side with a version.
fn left_path_and_version(
    alloc: Global,
    path: &Token,
    version: &Token,
) -> Result<LeftText, LineFault>
    ensures { IsPartRead left_text_view DirectiveKind.WrongArguments (λ _. [])
        (both left_with (argument path.now.word) (argument version.now.word)) result }
{
    let path = argument(alloc, path)?;
    let version = argument(alloc, version)?;
    Ok(LeftText {
        path,
        version: Some(version),
    })
}

/// The texts of the left side: a path, or a path and a version. Other words are refused with `WrongArguments`.
fn left_text(alloc: Global, words: &[Token]) -> Result<LeftText, LineFault>
    ensures { IsPartRead left_text_view DirectiveKind.WrongArguments (λ _. []) (left_of (words_of words.now)) result }
{
    match words {
        [path] => left_path(alloc, path),
        [path, version] => left_path_and_version(alloc, path, version),
        _ => Err(LineFault::Kind(DirectiveKind::WrongArguments)),
    }
}

/// The text of a right side that is a folder. A module path without a version is refused with `WrongArguments`.
fn right_folder(alloc: Global, folder: &Token) -> Result<RightText, LineFault>
    ensures { IsPartRead right_text_view DirectiveKind.WrongArguments (λ _. [])
        (option_and_then folder_right (argument folder.now.word)) result }
{
    let text = argument(alloc, folder)?;
    if !is_folder(text.as_str()) {
        return Err(LineFault::Kind(DirectiveKind::WrongArguments));
    }
    Ok(RightText::Folder(text))
}

/// The texts of a right side that is a module. A folder with a version is refused with `WrongArguments`.
fn right_module(alloc: Global, path: &Token, version: &Token) -> Result<RightText, LineFault>
    ensures { IsPartRead right_text_view DirectiveKind.WrongArguments (λ _. [])
        (option_and_then (λ p. module_right p.0 p.1) (both pair (argument path.now.word) (argument version.now.word)))
        result }
{
    let path = argument(alloc, path)?;
    let version = argument(alloc, version)?;
    if is_folder(path.as_str()) {
        return Err(LineFault::Kind(DirectiveKind::WrongArguments));
    }
    Ok(RightText::Module(path, version))
}

/// The texts of the right side: a folder alone, or a module path with a version. Other words are refused with
/// `WrongArguments`.
fn right_text(alloc: Global, words: &[Token]) -> Result<RightText, LineFault>
    ensures { IsPartRead right_text_view DirectiveKind.WrongArguments (λ _. []) (right_of (words_of words.now)) result }
{
    match words {
        [folder] => right_folder(alloc, folder),
        [path, version] => right_module(alloc, path, version),
        _ => Err(LineFault::Kind(DirectiveKind::WrongArguments)),
    }
}

/// The version of the left side, if it has one.
fn read_left_version(
    names: &mut KnownNames,
    version: &Option<String>,
) -> Result<Option<ModVersion>, LineFault>
    ensures kept { KeepsNames names.old names.new }
    ensures read { IsPartRead (λ version. version) DirectiveKind.WrongArguments left_version_kinds
        (Some (option_map string_bytes version.now)) result }
{
    match version {
        Some(text) => Ok(Some(read_version(names, text.as_str())?)),
        None => Ok(None),
    }
}

/// Whether the version of the left side of a `replace` fits its path. A side without a version always fits. Takes no
/// memory.
pub fn does_left_fit(path: &ModPath, version: &Option<ModVersion>) -> bool
    ensures { result ≡ does_left_fit path.now version.now }
{
    match version {
        Some(version) => fits(path, version),
        None => true,
    }
}

/// The replacement of these texts by a folder.
fn replace_by_folder(
    names: &mut KnownNames,
    left: &LeftText,
    folder: String,
) -> Result<Replace, LineFault>
    ensures kept { KeepsNames names.old names.new }
    ensures read { IsPartRead replace_view DirectiveKind.WrongArguments replacing_kinds
        (Some (replacing (left_text_view left.now) (Folder (string_bytes folder)))) result }
{
    let path = read_path(names, left.path.as_str())?;
    let version = read_left_version(names, &left.version)?;
    if !does_left_fit(&path, &version) {
        return Err(LineFault::Kind(DirectiveKind::Misfit));
    }
    Ok(Replace {
        left: path,
        version,
        right: Right::Folder(folder),
    })
}

/// The replacement of these texts by a version of a module. Both paths are read before both versions, since `BadPath`
/// comes before `BadVersion`. The version on the right need not fit its path.
fn replace_by_module(
    names: &mut KnownNames,
    left: &LeftText,
    path: &str,
    version: &str,
) -> Result<Replace, LineFault>
    ensures kept { KeepsNames names.old names.new }
    ensures read { IsPartRead replace_view DirectiveKind.WrongArguments replacing_kinds
        (Some (replacing (left_text_view left.now) (Module path.now version.now))) result }
{
    let left_path = read_path(names, left.path.as_str())?;
    let path = read_path(names, path)?;
    let left_version = read_left_version(names, &left.version)?;
    let version = read_version(names, version)?;
    if !does_left_fit(&left_path, &left_version) {
        return Err(LineFault::Kind(DirectiveKind::Misfit));
    }
    Ok(Replace {
        left: left_path,
        version: left_version,
        right: Right::Module(path, version),
    })
}

/// The replacement that the texts of both sides spell.
fn replace_of_texts(
    names: &mut KnownNames,
    left: &LeftText,
    right: RightText,
) -> Result<Replace, LineFault>
    ensures kept { KeepsNames names.old names.new }
    ensures read { IsPartRead replace_view DirectiveKind.WrongArguments replacing_kinds
        (Some (replacing (left_text_view left.now) (right_text_view right))) result }
{
    match right {
        RightText::Folder(folder) => replace_by_folder(names, left, folder),
        RightText::Module(path, version) => {
            replace_by_module(names, left, path.as_str(), version.as_str())
        }
    }
}

/// The replacement that the arguments of a `replace` spell: a path, an optional version that fits it, `=>`, and a
/// folder or a path and a version. Other words are refused with `WrongArguments`.
pub(crate) fn read_replace(
    alloc: Global,
    names: &mut KnownNames,
    words: &[Token],
) -> Result<Replace, LineFault>
    ensures kept { KeepsNames names.old names.new }
    ensures read { IsPartRead replace_view DirectiveKind.WrongArguments replacing_kinds
        (replacing_of (words_of words.now)) result }
{
    let Some((before, after)) = split_at_arrow(words) else {
        return Err(LineFault::Kind(DirectiveKind::WrongArguments));
    };
    let left = left_text(alloc, before)?;
    let right = right_text(alloc, after)?;
    replace_of_texts(names, &left, right)
}
