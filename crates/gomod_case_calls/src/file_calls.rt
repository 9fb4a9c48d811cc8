//! Calls about what a go.mod says: its lines, its words, and its directives.

use crate::call_faults::CallFault;
use crate::name_calls::push_line;
use gm_file::{DepFile, Interval, MainFile, Replace, Right};
use gm_name::{ModPath, ModVer};
use gm_syntax::{Doc, Line, Token};
use std::alloc::{AllocError, Global};
use std::borrow::CowStr;
use std::slice;

/// Appends what a call about the text of a file gives.
pub(crate) fn about_text(
    alloc: Global,
    text: &mut String,
    name: &str,
    bytes: &[u8],
) -> Result<(), CallFault> {
    let doc = Doc::parse(alloc, bytes)?;
    about_document(alloc, text, name, &doc)
}

/// Appends what a call about a document gives.
fn about_document(
    alloc: Global,
    text: &mut String,
    name: &str,
    doc: &Doc,
) -> Result<(), CallFault> {
    match name {
        "document" => Ok(push_lines(text, doc.lines())?),
        "spans" => Ok(push_places_in(text, doc.lines())?),
        "lax" => lax(alloc, text, doc),
        _ => Err(CallFault::NoCall),
    }
}

/// Appends a word or a comment after a space.
fn push_spaced(text: &mut String, word: &str) -> Result<(), AllocError> {
    text.push(' ')?;
    text.push_str(word)
}

/// Appends words, each as it is spelled.
fn push_words(text: &mut String, words: &[Token]) -> Result<(), AllocError> {
    for word in words {
        push_spaced(text, word.spelling())?;
    }
    Ok(())
}

/// What kind of line of a document it is.
fn kind_of(line: &Line) -> &'static str {
    match line {
        Line::Blank => "Blank",
        Line::Comment(_) => "Comment",
        Line::Open(..) => "Open",
        Line::Close(_) => "Close",
        Line::Entry(..) => "Entry",
    }
}

/// The comment of a line, if it has one.
fn comment_of<'a, 'b>(line: &'b Line<'a>) -> Option<&'b CowStr<'a>> {
    match line {
        Line::Comment(comment) => Some(comment),
        Line::Open(_, comment) | Line::Close(comment) | Line::Entry(_, comment) => comment.as_ref(),
        Line::Blank => None,
    }
}

/// The words of a line but for the parentheses of a block.
fn words_of<'a, 'b>(line: &'b Line<'a>) -> &'b [Token<'a>] {
    match line {
        Line::Open(verb, _) => slice::from_ref(verb),
        Line::Entry(words, _) => words.as_slice(),
        _ => &[],
    }
}

/// Appends the description of a line of a document.
fn push_line_of(text: &mut String, line: &Line) -> Result<(), AllocError> {
    text.push_str(kind_of(line))?;
    push_words(text, words_of(line))?;
    if let Some(comment) = comment_of(line) {
        push_spaced(text, comment.as_str())?;
    }
    text.push('\n')
}

/// Appends the descriptions of lines.
fn push_lines(text: &mut String, lines: &[Line]) -> Result<(), AllocError> {
    for line in lines {
        push_line_of(text, line)?;
    }
    Ok(())
}

/// Appends the place of a word, and the word.
fn push_place(text: &mut String, word: &Token) -> Result<(), AllocError> {
    let Some(span) = word.span() else {
        return Ok(());
    };
    let (line, spelling) = (word.line(), word.spelling());
    let (first, after) = (span.first, span.after);
    writeln!(text, "{line} {first}..{after} {spelling}")
}

/// Appends the places of words.
fn push_places(text: &mut String, words: &[Token]) -> Result<(), AllocError> {
    for word in words {
        push_place(text, word)?;
    }
    Ok(())
}

/// Appends the places of the words of lines.
fn push_places_in(text: &mut String, lines: &[Line]) -> Result<(), AllocError> {
    for line in lines {
        push_places(text, words_of(line))?;
    }
    Ok(())
}

/// Appends the word with a value, or none if the value has a line feed.
pub(crate) fn spell(alloc: Global, text: &mut String, value: &str) -> Result<(), CallFault> {
    if !value.as_bytes().iter().all(|byte| *byte != b'\n') {
        return push_line(text, "none");
    }
    let word = Token::spell(alloc, value)?;
    push_line(text, word.spelling())
}

/// Appends the directives that have a path and a version after their verb.
fn push_pairs(text: &mut String, verb: &str, pairs: &[ModVer]) -> Result<(), AllocError> {
    for pair in pairs {
        let (path, version) = (pair.path(), pair.version());
        writeln!(text, "{verb} {path} {version}")?;
    }
    Ok(())
}

/// Appends a retraction.
fn push_retraction(text: &mut String, interval: &Interval) -> Result<(), AllocError> {
    let (low, high) = (interval.low.as_str(), interval.high.as_str());
    writeln!(text, "retract [{low}, {high}]")
}

/// Appends retractions.
fn push_retractions(text: &mut String, intervals: &[Interval]) -> Result<(), AllocError> {
    for interval in intervals {
        push_retraction(text, interval)?;
    }
    Ok(())
}

/// Appends the right side of a replacement.
fn push_right(text: &mut String, right: &Right) -> Result<(), AllocError> {
    match right {
        Right::Folder(folder) => text.push_str(folder.as_str())?,
        Right::Module(path, version) => write!(text, "{path} {version}")?,
    }
    Ok(())
}

/// Appends a replacement.
fn push_replacement(text: &mut String, replacement: &Replace) -> Result<(), AllocError> {
    let path = &replacement.left;
    match &replacement.version {
        Some(version) => write!(text, "replace {path} {version} => ")?,
        None => write!(text, "replace {path} => ")?,
    }
    push_right(text, &replacement.right)?;
    text.push('\n')
}

/// Appends the go version.
fn push_go(text: &mut String, go: (u32, u32)) -> Result<(), AllocError> {
    let (first, second) = go;
    writeln!(text, "go {first}.{second}")
}

/// Appends replacements.
fn push_replacements(text: &mut String, replacements: &[Replace]) -> Result<(), AllocError> {
    for replacement in replacements {
        push_replacement(text, replacement)?;
    }
    Ok(())
}

/// Appends the path of a module.
fn push_module(text: &mut String, path: &ModPath) -> Result<(), AllocError> {
    writeln!(text, "module {path}")
}

/// Appends what a main file says.
pub(crate) fn push_main(text: &mut String, file: &MainFile) -> Result<(), AllocError> {
    push_module(text, file.module())?;
    push_go(text, file.go())?;
    push_pairs(text, "require", file.requirements())?;
    push_pairs(text, "exclude", file.excludes())?;
    push_replacements(text, file.replaces())?;
    push_retractions(text, file.retracts())
}

/// Appends what a dependency's file says.
fn push_dependency(text: &mut String, file: &DepFile) -> Result<(), AllocError> {
    if let Some(path) = file.module() {
        push_module(text, path)?;
    }
    push_go(text, file.go())?;
    push_pairs(text, "require", file.requirements())?;
    push_retractions(text, file.retracts())
}

/// Appends what a document says as a dependency's file.
fn lax(alloc: Global, text: &mut String, doc: &Doc) -> Result<(), CallFault> {
    let file = DepFile::read(alloc, doc)?;
    Ok(push_dependency(text, &file)?)
}

/// Appends a right side, or that there is none.
pub(crate) fn push_found(text: &mut String, right: Option<&Right>) -> Result<(), AllocError> {
    match right {
        Some(right) => push_right(text, right)?,
        None => text.push_str("none")?,
    }
    text.push('\n')
}
