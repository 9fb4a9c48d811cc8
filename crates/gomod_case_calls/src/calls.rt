//! Which function a call is of.

use crate::call_faults::CallFault;
use crate::{file_calls, main_calls, name_calls, store_calls};
use gomod_case_files::View;
use std::alloc::{AllocError, Global};

/// What a call prints, or none if there is no such call, the number of arguments is wrong, or a file that it names
/// doesn't exist.
pub fn call(alloc: Global, view: &View<'_>, words: &[&str]) -> Result<Option<String>, AllocError> {
    let mut text = String::new(alloc);
    match push_answer(alloc, &mut text, view, words) {
        Ok(()) => Ok(Some(text)),
        Err(fault) => fault.line(alloc),
    }
}

/// Appends what a call gives.
fn push_answer(
    alloc: Global,
    text: &mut String,
    view: &View<'_>,
    words: &[&str],
) -> Result<(), CallFault> {
    match words {
        [name, argument] => about_one(alloc, text, view, name, argument),
        [name, first, second] => about_two(alloc, text, view, name, first, second),
        [name, first, second, third] => about_three(
            alloc,
            text,
            view,
            name,
            first,
            (second, third),
        ),
        [name, first, second, third, fourth] => {
            about_four(alloc, text, view, name, (first, second), (third, fourth))
        }
        _ => Err(CallFault::NoCall),
    }
}

/// Appends what a call with one argument gives.
fn about_one(
    alloc: Global,
    text: &mut String,
    view: &View<'_>,
    name: &str,
    argument: &str,
) -> Result<(), CallFault> {
    match name {
        "path" => name_calls::path(alloc, text, argument),
        "version" => name_calls::version(alloc, text, argument),
        "pseudo" => name_calls::pseudo(alloc, text, argument),
        "base" => name_calls::base(alloc, text, argument),
        "escape" => name_calls::escape(alloc, text, argument),
        "unescape" => name_calls::unescape(alloc, text, argument),
        "spell" => file_calls::spell(alloc, text, argument),
        "folder_of" => store_calls::folder_of(alloc, text, argument),
        _ => about_file(alloc, text, name, file(view, argument)?),
    }
}

/// The bytes of a file of the case.
fn file<'a>(view: &View<'a>, name: &str) -> Result<&'a [u8], CallFault> {
    match view.named(name) {
        Some(bytes) => Ok(bytes),
        None => Err(CallFault::NoCall),
    }
}

/// Appends what a call about a file alone gives.
fn about_file(alloc: Global, text: &mut String, name: &str, bytes: &[u8]) -> Result<(), CallFault> {
    match name {
        "document" | "spans" | "lax" => file_calls::about_text(alloc, text, name, bytes),
        "strict" => main_calls::strict(alloc, text, bytes),
        "select" => main_calls::select(alloc, text, bytes),
        "hash" => store_calls::hash(alloc, text, bytes),
        _ => Err(CallFault::NoCall),
    }
}

/// Appends what a call with two arguments gives.
fn about_two(
    alloc: Global,
    text: &mut String,
    view: &View<'_>,
    name: &str,
    first: &str,
    second: &str,
) -> Result<(), CallFault> {
    match name {
        "fits" => name_calls::fits(alloc, text, first, second),
        "order" => name_calls::order(alloc, text, first, second),
        "precedence" => name_calls::precedence(alloc, text, first, second),
        "step" => store_calls::step(alloc, text, first, second),
        "relative_name" => store_calls::place_named(alloc, text, first, second),
        "apply" => main_calls::apply(alloc, text, file(view, first)?, second),
        _ => about_list(alloc, text, name, first, file(view, second)?),
    }
}

/// Appends what a call about a module's list of versions gives.
fn about_list(
    alloc: Global,
    text: &mut String,
    name: &str,
    path: &str,
    bytes: &[u8],
) -> Result<(), CallFault> {
    match name {
        "listed" | "latest" => store_calls::about_list(alloc, text, name, path, bytes),
        _ => Err(CallFault::NoCall),
    }
}

/// Appends what a call with three arguments gives, of which the last two are mostly a path and a version.
fn about_three(
    alloc: Global,
    text: &mut String,
    view: &View<'_>,
    name: &str,
    first: &str,
    pair: (&str, &str),
) -> Result<(), CallFault> {
    match (name, first) {
        ("replacement", _) => main_calls::replacement(alloc, text, file(view, first)?, pair),
        ("excluded", _) => main_calls::excluded(alloc, text, file(view, first)?, pair),
        ("relative_name", "mod") => store_calls::place_of_version(alloc, text, pair),
        _ => Err(CallFault::NoCall),
    }
}

/// Appends what a call with four arguments gives.
fn about_four(
    alloc: Global,
    text: &mut String,
    view: &View<'_>,
    name: &str,
    one: (&str, &str),
    other: (&str, &str),
) -> Result<(), CallFault> {
    match name {
        "order" => name_calls::order_of_pairs(alloc, text, one, other),
        "check" => store_calls::check(alloc, text, file(view, one.0)?, (one.1, other.0), other.1),
        _ => Err(CallFault::NoCall),
    }
}
