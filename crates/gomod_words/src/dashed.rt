//! Operations of `edit` that are written with a dash in front, as after `go mod edit`. The parser would take such a
//! word for an option that is unknown.

ghost use Rattle.std.specs.Prelude.{◌≡◌, is_some};
ghost use Rattle.std.specs.List.{find};
ghost use Rattle.std.specs.Option.{option_copied};
ghost use Rattle.gomod_hints.specs.Hints.{begins_with_dash, texts_of};
ghost use Rattle.gomod_words.specs.Dashed.{dashed_in, is_operation, operation_in};

use crate::table::EDIT;
use gm_operation::OperationKind;
use gomod_hints::{begins_with_dash, without_dash};

/// Whether a text begins with the name of an operation and `=`.
fn is_operation(text: &str) -> bool
    ensures { result ≡ is_operation text.now }
{
    match text.split_once('=') {
        Some((name, _)) => OperationKind::named(name).is_some(),
        None => false,
    }
}

/// The operation that a word is, with one dash or two in front or with none.
fn operation_in(word: &str) -> Option<&str>
    ensures { option_copied result ≡ operation_in word.now }
{
    let text = without_dash(without_dash(word));
    if is_operation(text) { Some(text) } else { None }
}

/// The first word that begins with a dash and is more than that.
pub(crate) fn first_with_dash<'a>(words: &[&'a str]) -> Option<&'a str>
    ensures { option_copied result ≡ find begins_with_dash (texts_of words.now) }
{
    for word in words {
        if begins_with_dash(word) {
            return Some(*word);
        }
    }
    None
}

/// The operation that the words of a command line have with a dash in front, or `None` if the parser is to read them.
/// The first word is the program's name.
pub(crate) fn dashed_in<'a>(words: &[&'a str]) -> Option<&'a str>
    ensures { option_copied result ≡ dashed_in (texts_of words.now) }
{
    let [_, name, rest @ ..] = words else {
        return None;
    };
    if *name != EDIT {
        return None;
    }
    operation_in(first_with_dash(rest)?)
}
