//! The parts of an entry: values, paths, versions and intervals. Each reader turns words or their values into a checked
//! type, and every refusal into the kind of fault of the line.

ghost use Rattle.std.specs.Prelude.{◌≡◌, [], IfErr, IfOk, Some};
ghost use Rattle.std.specs.Option.{option_map};
ghost use Rattle.std.specs.Cow.{cow_str_bytes};
ghost use Rattle.std.specs.String.{string_bytes};
ghost use Rattle.gm_syntax_words.specs.Tokens.{words_of};
ghost use Rattle.gm_syntax_words.specs.Values.{value_of};
ghost use Rattle.gm_file.specs.Private.Reading.{KeepsNames, IsPartRead};
ghost use Rattle.gm_file.specs.Values.{argument, both};
ghost use Rattle.gm_file.specs.Directives.{ends_of, is_empty_block, one_of, pair, pair_of};
ghost use Rattle.gm_file.specs.Faults.{ends_kinds, pair_kinds, path_kinds, version_kinds};
ghost use Rattle.gm_file.specs.Views.{interval_view};

use crate::fault::{DirectiveKind, LineFault};
use crate::replace::Interval;
use gm_name::{ModPath, ModVer, ModVersion};
use gm_name_table::KnownNames;
use gm_syntax::{Kind, Token};
use std::alloc::Global;
use std::borrow::CowStr;

/// The value of a word. It borrows from the word, except that a quoted text with escapes is copied.
fn borrowed_value<'w>(alloc: Global, word: &'w Token) -> Result<CowStr<'w>, LineFault>
    ensures value { IfOk result (λ text. cow_str_bytes text ≡ value_of word.now.word) }
    ensures memory { IfErr result (λ fault. fault ≡ LineFault.NoMemory) }
{
    Ok(word.value(alloc)?)
}

/// The value of an argument, borrowed if it has no escapes. Punctuation is not an argument and is refused with
/// `WrongArguments`.
fn borrowed_argument<'w>(alloc: Global, word: &'w Token) -> Result<CowStr<'w>, LineFault>
    ensures { IsPartRead cow_str_bytes DirectiveKind.WrongArguments (λ _. []) (argument word.now.word) result }
{
    match word.kind() {
        Kind::Bare => borrowed_value(alloc, word),
        Kind::Text => borrowed_value(alloc, word),
        Kind::Mark => Err(LineFault::Kind(DirectiveKind::WrongArguments)),
    }
}

/// A copy of the value of an argument. Punctuation is refused with `WrongArguments`.
pub(crate) fn argument(alloc: Global, word: &Token) -> Result<String, LineFault>
    ensures { IsPartRead string_bytes DirectiveKind.WrongArguments (λ _. []) (argument word.now.word) result }
{
    Ok(borrowed_argument(alloc, word)?.into_owned(alloc)?)
}

/// The value of the only argument, borrowed if it has no escapes. Any other number of words is refused with
/// `WrongArguments`.
pub(crate) fn borrowed_one<'w>(alloc: Global, words: &'w [Token]) -> Result<CowStr<'w>, LineFault>
    ensures { IsPartRead cow_str_bytes DirectiveKind.WrongArguments (λ _. []) (one_of (words_of words.now)) result }
{
    match words {
        [word] => borrowed_argument(alloc, word),
        _ => Err(LineFault::Kind(DirectiveKind::WrongArguments)),
    }
}

/// A copy of the value of the only argument.
pub(crate) fn one_value(alloc: Global, words: &[Token]) -> Result<String, LineFault>
    ensures { IsPartRead string_bytes DirectiveKind.WrongArguments (λ _. []) (one_of (words_of words.now)) result }
{
    Ok(borrowed_one(alloc, words)?.into_owned(alloc)?)
}

/// The module path that a text spells. Any other text is refused with `BadPath`.
pub(crate) fn read_path(names: &mut KnownNames, text: &str) -> Result<ModPath, LineFault>
    ensures kept { KeepsNames names.old names.new }
    ensures read { IsPartRead (λ path. path) DirectiveKind.WrongArguments path_kinds (Some text.now) result }
{
    Ok(names.path(text)?)
}

/// The canonical version that a text spells. Any other text is refused with `BadVersion`.
pub(crate) fn read_version(names: &mut KnownNames, text: &str) -> Result<ModVersion, LineFault>
    ensures kept { KeepsNames names.old names.new }
    ensures read { IsPartRead (λ version. version) DirectiveKind.WrongArguments version_kinds (Some text.now) result }
{
    Ok(names.version(text)?)
}

/// The path and the version that two texts spell. The texts are refused with `BadPath`, then with `BadVersion`,
/// then with `Misfit` if the version doesn't fit the path.
pub(crate) fn pair_of_texts(
    names: &mut KnownNames,
    path: &str,
    version: &str,
) -> Result<ModVer, LineFault>
    ensures kept { KeepsNames names.old names.new }
    ensures read { IsPartRead (λ pair. pair) DirectiveKind.WrongArguments pair_kinds
        (Some (path.now, version.now)) result }
{
    Ok(names.pair(path, version)?)
}

/// The path and the version that two words spell.
fn pair_of_words(
    alloc: Global,
    names: &mut KnownNames,
    path: &Token,
    version: &Token,
) -> Result<ModVer, LineFault>
    ensures kept { KeepsNames names.old names.new }
    ensures read { IsPartRead (λ pair. pair) DirectiveKind.WrongArguments pair_kinds
        (both pair (argument path.now.word) (argument version.now.word)) result }
{
    let path = borrowed_argument(alloc, path)?;
    let version = borrowed_argument(alloc, version)?;
    pair_of_texts(names, path.as_str(), version.as_str())
}

/// The path and the version of a `require` or an `exclude`. Anything but two arguments is refused with
/// `WrongArguments`.
pub(crate) fn read_pair(
    alloc: Global,
    names: &mut KnownNames,
    words: &[Token],
) -> Result<ModVer, LineFault>
    ensures kept { KeepsNames names.old names.new }
    ensures read { IsPartRead (λ pair. pair) DirectiveKind.WrongArguments pair_kinds
        (pair_of (words_of words.now)) result }
{
    match words {
        [path, version] => pair_of_words(alloc, names, path, version),
        _ => Err(LineFault::Kind(DirectiveKind::WrongArguments)),
    }
}

/// The interval between the versions that two texts spell.
pub(crate) fn interval_of_texts(
    names: &mut KnownNames,
    low: &str,
    high: &str,
) -> Result<Interval, LineFault>
    ensures kept { KeepsNames names.old names.new }
    ensures read { IsPartRead interval_view DirectiveKind.WrongArguments ends_kinds (Some (low.now, high.now)) result }
{
    let low = read_version(names, low)?;
    let high = read_version(names, high)?;
    Ok(Interval { low, high })
}

/// Whether the words after a verb are just `(` and `)`. The parser reads such a line as an entry, but it is a block
/// with no entries. Takes no memory.
pub fn is_empty_block(words: &[Token]) -> bool
    ensures { result ≡ is_empty_block (words_of words.now) }
{
    match words {
        [open, close] => open.is_mark(b'(') && close.is_mark(b')'),
        _ => false,
    }
}

/// The interval from one version to itself.
fn single_interval(
    alloc: Global,
    names: &mut KnownNames,
    version: &Token,
) -> Result<Interval, LineFault>
    ensures kept { KeepsNames names.old names.new }
    ensures read { IsPartRead interval_view DirectiveKind.WrongArguments ends_kinds
        (option_map (λ w. pair w w) (argument version.now.word)) result }
{
    let text = borrowed_argument(alloc, version)?;
    interval_of_texts(names, text.as_str(), text.as_str())
}

/// The interval between two versions.
fn interval_between(
    alloc: Global,
    names: &mut KnownNames,
    low: &Token,
    high: &Token,
) -> Result<Interval, LineFault>
    ensures kept { KeepsNames names.old names.new }
    ensures read { IsPartRead interval_view DirectiveKind.WrongArguments ends_kinds
        (both pair (argument low.now.word) (argument high.now.word)) result }
{
    let low = borrowed_argument(alloc, low)?;
    let high = borrowed_argument(alloc, high)?;
    interval_of_texts(names, low.as_str(), high.as_str())
}

/// The interval of a `retract`: from a single version to itself, or between the two versions in brackets, as in
/// `[v1.0.0, v1.2.0]` (Go Modules Reference, retract directive). Other words are refused with `WrongArguments`.
pub(crate) fn read_interval(
    alloc: Global,
    names: &mut KnownNames,
    words: &[Token],
) -> Result<Interval, LineFault>
    ensures kept { KeepsNames names.old names.new }
    ensures read { IsPartRead interval_view DirectiveKind.WrongArguments ends_kinds
        (ends_of (words_of words.now)) result }
{
    match words {
        [version] => single_interval(alloc, names, version),
        [open, low, comma, high, close] => {
            if !(open.is_mark(b'[') && comma.is_mark(b',') && close.is_mark(b']')) {
                return Err(LineFault::Kind(DirectiveKind::WrongArguments));
            }
            interval_between(alloc, names, low, high)
        }
        _ => Err(LineFault::Kind(DirectiveKind::WrongArguments)),
    }
}
