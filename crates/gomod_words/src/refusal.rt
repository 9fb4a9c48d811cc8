//! What is wrong with words, in the parser's text. The parser gives the kind of an error and its text alone, and the
//! text has words in it, as they were typed.

ghost use Rattle.std.specs.Prelude.{◌≡◌, true};
ghost use Rattle.gomod_hints.specs.Hints.{texts_of};
ghost use Rattle.gomod_words.specs.Usage.{IsInAWord};

use crate::help::TRY_HELP;
use crate::table::{command_in, command_row, usage_of};
use clap::error::ErrorKind;
use gomod_hints::has_text;

/// What stands between a message and its tips.
pub(crate) const TIP: &str = "\n\n  tip: ";

/// What stands between a message and its usage line.
const USAGE: &str = "\n\nUsage: ";

/// What is wrong with these words, in the parser's text on them: all before its tips and its usage line.
pub(crate) fn message_in<'t>(kind: ErrorKind, text: &'t str, words: &[&str]) -> &'t str {
    let front = before_usage(text, usage_of(words));
    match kind {
        ErrorKind::DisplayHelpOnMissingArgumentOrSubcommand => "error: no command given",
        ErrorKind::UnknownArgument => {
            before_tip(
                front,
                "error: unexpected argument",
                "' found\n\n  tip: ",
                words,
            )
        }
        ErrorKind::InvalidSubcommand => {
            before_tip(
                front,
                "error: unrecognized subcommand",
                "'\n\n  tip: ",
                words,
            )
        }
        _ => front,
    }
}

/// What this message of the parser's is about, as the message names it.
pub(crate) fn subject_in<'t>(kind: ErrorKind, message: &'t str, words: &[&str]) -> Option<&'t str> {
    match kind {
        ErrorKind::UnknownArgument => message
            .strip_prefix("error: unexpected argument '")?
            .strip_suffix("' found"),
        ErrorKind::InvalidSubcommand => message
            .strip_prefix("error: unrecognized subcommand '")?
            .strip_suffix("'"),
        ErrorKind::InvalidValue => {
            let (option, _) = message
                .strip_prefix("error: a value is required for '")?
                .split_once(" ")?;
            Some(option)
        }
        ErrorKind::MissingRequiredArgument => Some(command_row(command_in(words)?).name),
        _ => None,
    }
}

/// The text without this usage line and what stands around it. It has none if an option has no value.
fn before_usage<'t>(text: &'t str, usage: &str) -> &'t str {
    let front = without_suffix(text, TRY_HELP);
    match front.strip_suffix(usage) {
        Some(front) => without_suffix(front, USAGE),
        None => front,
    }
}

/// The text without this at its end.
fn without_suffix<'t>(text: &'t str, suffix: &str) -> &'t str {
    text.strip_suffix(suffix).unwrap_or(text)
}

/// The message before its tips, where this mark ends the one and begins the others. If a word has the mark in it,
/// nothing tells where the message ends, and there is this short one.
fn before_tip<'t>(front: &'t str, short: &'t str, mark: &str, words: &[&str]) -> &'t str {
    if is_within(mark, words) {
        return short;
    }
    match front.split_once(mark) {
        Some((_, tips)) => without_suffix(without_suffix(front, tips), TIP),
        None => front,
    }
}

/// Whether one of these words has this text in it.
pub(crate) fn is_within(text: &str, words: &[&str]) -> bool
    ensures { result ≡ true → IsInAWord text.now (texts_of words.now) }
{
    for word in words {
        if has_text(word, text) {
            return true;
        }
    }
    false
}
