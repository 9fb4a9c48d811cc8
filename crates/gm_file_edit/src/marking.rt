//! Marking the lines that an operation targets.
//!
//! The words of a line are elsewhere in memory. So they are looked at only if its key agrees with the operation's.

ghost use Rattle.std.specs.Prelude.{◌≡◌, if◌then◌else◌, drop, not, length, take_while, IfOk, None, option_and_then};
ghost use Rattle.std.specs.List.{list_any};
ghost use Rattle.std.specs.Option.{option_map};
ghost use Rattle.gm_syntax_words.specs.Tokens.{words_of};
ghost use Rattle.gm_syntax.specs.LineViews.{line_of};
ghost use Rattle.gm_file.specs.Faults.{is_same_version};
ghost use Rattle.gm_file.specs.Values.{argument};
ghost use Rattle.gm_file_edit.specs.About.{about};
ghost use Rattle.gm_file_edit.specs.Private.Keys.{agrees, have_texts, hold_texts, subject_view, words_held};
ghost use Rattle.gm_file_edit.specs.Private.Marks.{marks_from};
ghost use Rattle.gm_file_edit.specs.Sound.{edit_of};

use crate::keyed_lines::KeyedLines;
use crate::keys::{Key, agrees, key_with, words_about};
use crate::op::Change;
use crate::subject::{Subject, takes_any_version, target_of};
use gm_syntax::{Kind, Line, Token};
use std::alloc::{AllocError, Global};

/// Whether both texts are equal, or both are missing.
fn is_same_text(one: Option<&str>, other: Option<&str>) -> bool
    ensures { result ≡ is_same_version (option_map (λ t. t.now) one.entry) (option_map (λ t. t.now) other.entry) }
{
    match one {
        None => other.is_none(),
        Some(one) => match other {
            None => false,
            Some(other) => *one == *other,
        },
    }
}

/// Whether a word is an argument with this value, or none if there is no value.
fn is_argument(alloc: Global, word: &Token, value: Option<&str>) -> Result<bool, AllocError>
    ensures { IfOk result (λ is. is ≡ is_same_version (argument word.now.word) (option_map (λ t. t.now) value.entry)) }
{
    match word.kind() {
        Kind::Bare => Ok(is_same_text(Some(word.spelling()), value)),
        Kind::Text => Ok(is_same_text(Some(word.value(alloc)?.as_str()), value)),
        Kind::Mark => Ok(value.is_none()),
    }
}

/// Whether a word is there and an argument with this value, or neither if there is no value.
fn is_value(alloc: Global, word: Option<&Token>, value: Option<&str>) -> Result<bool, AllocError>
    ensures { IfOk result (λ is. is ≡ is_same_version (option_and_then (λ t. argument t.now.word) word.entry)
        (option_map (λ t. t.now) value.entry)) }
{
    match word {
        None => Ok(value.is_none()),
        Some(word) => is_argument(alloc, word, value),
    }
}

/// Whether an entry of the target's verb with these arguments is about the texts of a target. The second one doesn't
/// count if `any_second` says so.
fn have_texts(
    alloc: Global,
    target: Subject,
    any_second: bool,
    arguments: &[Token],
) -> Result<bool, AllocError>
    ensures { IfOk result (λ have. have ≡ have_texts (subject_view target.entry) any_second (words_of arguments.now)) }
{
    let (first, second) = words_about(target.verb, arguments);
    if !is_value(alloc, first, target.first)? {
        return Ok(false);
    }
    if any_second {
        return Ok(true);
    }
    is_value(alloc, second, target.second)
}

/// The words of an entry.
fn entry_words<'w, 'a>(line: &'w Line<'a>) -> Option<&'w [Token<'a>]>
    ensures { option_map (λ words. words.now) result ≡ words_held (line_of line.now) }
{
    match line {
        Line::Entry(words, _) => Some(words.as_slice()),
        Line::Blank | Line::Comment(_) | Line::Open(_, _) | Line::Close(_) => None,
    }
}

/// The arguments of an entry: its words without the verb, which a block has at its opening.
fn arguments_of<'w, 'a>(inside: bool, words: &'w [Token<'a>]) -> &'w [Token<'a>]
    ensures { result.now ≡ (if inside then words.now else drop 1 words.now) }
{
    if inside || words.is_empty() {
        words
    } else {
        &words[1..]
    }
}

/// Whether a line, in a block or outside, is an entry about the texts of a target.
fn holds_texts(
    alloc: Global,
    target: Subject,
    any_second: bool,
    inside: bool,
    line: &Line,
) -> Result<bool, AllocError>
    ensures { IfOk result (λ holds. holds
        ≡ hold_texts (subject_view target.entry) any_second inside (line_of line.now)) }
{
    match entry_words(line) {
        None => Ok(false),
        Some(words) => have_texts(alloc, target, any_second, arguments_of(inside, words)),
    }
}

/// Whether a key agrees with an operation's.
pub(crate) fn any_agrees(target: &Key, any_second: bool, keys: &[Key]) -> bool
    ensures { result ≡ list_any (λ key. agrees target.now any_second key) keys.now }
{
    keys.iter().any(|key| agrees(target, any_second, key))
}

/// A mark for each line: whether it holds a directive that an operation targets.
pub(crate) fn marks(
    alloc: Global,
    change: &Change,
    lines: &KeyedLines,
) -> Result<Vec<bool>, AllocError>
    ensures { IfOk result (λ v. v.items ≡ marks_from (about (edit_of change.now)) None lines.now) }
{
    let target = target_of(change);
    let wanted = key_with(target, false);
    let any_second = takes_any_version(change);
    let mut marks = Vec::with_capacity(alloc, lines.len())?;
    for n in 0..lines.len() {
        let key = lines.key(n);
        let mark = if agrees(&wanted, any_second, &key) {
            holds_texts(alloc, target, any_second, key.is_inside(), lines.line(n))?
        } else {
            false
        };
        marks.push(mark)?;
    }
    Ok(marks)
}

/// The number of lines before the first that is marked, or of all lines if none is.
pub(crate) fn first_mark(marks: &[bool]) -> usize
    ensures { result ≡ length (take_while (λ mark. not mark) marks.now) }
{
    marks.iter().take_while(|mark| !**mark).count()
}
