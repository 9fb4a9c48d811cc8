//! Keys of lines.
//!
//! An operation targets few lines. The key of a line says of which verb its directive is, and has numbers of the texts
//! that the directive is about. Equal texts have equal numbers, so a line whose key differs from the operation's is
//! passed over without a look at its words, which are elsewhere in memory.

ghost use Rattle.std.specs.Prelude.{◌≡◌, [], IfOk, None, option_and_then};
ghost use Rattle.std.specs.Option.{option_map};
ghost use Rattle.gm_syntax_words.specs.Tokens.{words_of};
ghost use Rattle.gm_syntax.specs.LineViews.{line_of};
ghost use Rattle.gm_file.specs.Values.{argument};
ghost use Rattle.gm_file.specs.Directives.{Saying, Strict, verb_eq};
ghost use Rattle.gm_file.specs.Faults.{item_kinds};
ghost use Rattle.gm_file_edit.specs.Holding.{item_of};
ghost use Rattle.gm_file_edit.specs.Private.Keys.{agrees, held_subject, item_key, key_at, key_with, text_number, placed, subject_view, texts_named, words_view};

use crate::subject::Subject;
use gm_file::{Verb, is_empty_block, main_verb};
use gm_name::{fingerprint, tag_of};
use gm_syntax::{Kind, Line, Token};
use std::alloc::{AllocError, Global};

/// What is known of a line without a look at it.
#[derive(Clone, Copy)]
pub(crate) struct Key {
    /// The verb of its directive, or `Unknown` if it has none.
    pub(crate) verb: Verb,
    /// Whether it is in a block.
    pub(crate) inside: bool,
    /// The number of the first text that the directive is about.
    pub(crate) first: u32,
    /// The number of the second.
    pub(crate) second: u32,
}

impl Key {
    /// Whether the line holds a directive of a verb.
    pub(crate) fn is_of(&self, verb: Verb) -> bool
        ensures { result ≡ verb_eq verb self.now.verb }
    {
        verb == self.verb
    }

    /// Whether the line is in a block.
    pub(crate) fn is_inside(&self) -> bool
        ensures { result ≡ self.now.inside }
    {
        self.inside
    }

    /// The key of such a line in a block, or outside blocks.
    pub(crate) fn placed(&self, inside: bool) -> Key
        ensures { result ≡ placed self.now inside }
    {
        Key {
            verb: self.verb,
            inside,
            first: self.first,
            second: self.second,
        }
    }
}

/// The number of a text, if there is one.
fn text_number(text: Option<&str>) -> u32
    ensures { result ≡ text_number (option_map (λ t. t.now) text.entry) }
{
    match text {
        None => 0,
        Some(text) => tag_of(fingerprint(0, text)),
    }
}

/// The key of a line whose directive has this subject.
pub(crate) fn key_with(subject: Subject, inside: bool) -> Key
    ensures { result ≡ key_with (subject_view subject.entry) inside }
{
    Key {
        verb: subject.verb,
        inside,
        first: text_number(subject.first),
        second: text_number(subject.second),
    }
}

/// The key of a line without a directive.
pub(crate) fn silent_key(inside: bool) -> Key
    ensures { result ≡ key_with (held_subject None) inside }
{
    Key {
        verb: Verb::Unknown,
        inside,
        first: 0,
        second: 0,
    }
}

/// The words with the texts that a valid entry with this verb and these arguments is about. Of a `replace` without a
/// version the second is the arrow, which is no text.
pub(crate) fn words_about<'w, 'a>(
    verb: Verb,
    words: &'w [Token<'a>],
) -> (Option<&'w Token<'a>>, Option<&'w Token<'a>>)
    ensures { words_view result ≡ texts_named verb (words_of words.now) }
{
    match verb {
        Verb::Require => match words {
            [path, ..] => (Some(path), None),
            _ => (None, None),
        },
        Verb::Exclude | Verb::Replace => match words {
            [path, version, ..] => (Some(path), Some(version)),
            _ => (None, None),
        },
        Verb::Retract => match words {
            [version] => (Some(version), Some(version)),
            [_, low, _, high, ..] => (Some(low), Some(high)),
            _ => (None, None),
        },
        Verb::Module | Verb::Go | Verb::Nothing | Verb::Unknown => (None, None),
    }
}

/// The number of the value of a word, if it is an argument.
fn word_number(alloc: Global, word: &Token) -> Result<u32, AllocError>
    ensures { IfOk result (λ number. number ≡ text_number (argument word.now.word)) }
{
    match word.kind() {
        Kind::Bare => Ok(text_number(Some(word.spelling()))),
        Kind::Text => Ok(text_number(Some(word.value(alloc)?.as_str()))),
        Kind::Mark => Ok(0),
    }
}

/// The number of the value of a word, if it is there and an argument.
fn number_in(alloc: Global, word: Option<&Token>) -> Result<u32, AllocError>
    ensures { IfOk result (λ number. number ≡ text_number (option_and_then (λ t. argument t.now.word) word.entry)) }
{
    let Some(word) = word else {
        return Ok(0);
    };
    word_number(alloc, word)
}

/// The key of a valid entry with this verb and these arguments.
fn entry_key(
    alloc: Global,
    verb: &Token,
    arguments: &[Token],
    inside: bool,
) -> Result<Key, AllocError>
    requires { item_kinds Strict [] (Saying verb.now.word.spelling (words_of arguments.now)) ≡ [] }
    ensures { IfOk result (λ key. key
        ≡ item_key (Saying verb.now.word.spelling (words_of arguments.now)) inside) }
{
    let verb = main_verb(verb.spelling());
    let (one, other) = words_about(verb, arguments);
    let first = number_in(alloc, one)?;
    let second = number_in(alloc, other)?;
    Ok(Key {
        verb,
        inside,
        first,
        second,
    })
}

/// The key of a line of a valid file, given the verb of the open block, if any. Fails only if memory runs out, which
/// strings with escapes take.
#[tactic(auto, unfolding(gm_file::specs::Directives::item_at))]
pub(crate) fn key_of(alloc: Global, block: Option<&Token>, line: &Line) -> Result<Key, AllocError>
    requires { item_kinds Strict [] (item_of (option_map (λ t. t.now) block) (line_of line.now)) ≡ [] }
    ensures { IfOk result (λ key. key ≡ key_at (option_map (λ t. t.now) block.entry) (line_of line.now)) }
{
    let Line::Entry(words, _) = line else {
        return Ok(silent_key(block.is_some()));
    };
    match block {
        Some(verb) => entry_key(alloc, verb, words.as_slice(), true),
        None => match words.as_slice() {
            [] => Ok(silent_key(false)),
            [verb, arguments @ ..] => {
                if is_empty_block(arguments) {
                    Ok(silent_key(false))
                } else {
                    entry_key(alloc, verb, arguments, false)
                }
            }
        },
    }
}

/// Whether a line with a key may hold a directive with the subject of another key. The second numbers don't count if
/// `any_second` says so.
pub(crate) fn agrees(wanted: &Key, any_second: bool, key: &Key) -> bool
    ensures { result ≡ agrees wanted.now any_second key.now }
{
    key.is_of(wanted.verb)
        && wanted.first == key.first
        && (any_second || wanted.second == key.second)
}
