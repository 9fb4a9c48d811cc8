//! Making the words of new entries.
//!
//! These words come from no source. Each is spelled bare if possible, and quoted otherwise.

ghost use Rattle.std.specs.Prelude.{◌≡◌, ◌∷◌, ◌++◌, [], IfOk, OnOk};
ghost use Rattle.gm_syntax_words.specs.Lines.{HasNoLineFeed};
ghost use Rattle.gm_file.specs.Views.{interval_view, replace_view, right_view};
ghost use Rattle.gm_file_edit.specs.NewWords.{interval_words, left_words, made_mark, made_word, pair_words, replace_words, right_words};
ghost use Rattle.gm_file_edit.specs.Sound.{IsSoundRight};

use gm_file::{Interval, Replace, Right};
use gm_name::{ModPath, ModVersion};
use gm_syntax::{Punct, Token};
use std::alloc::{AllocError, Global};

/// Appends the word with this value.
pub(crate) fn push_word<'a>(
    alloc: Global,
    words: &mut Vec<Token<'a>>,
    value: &str,
) -> Result<(), AllocError>
    requires { HasNoLineFeed value.now }
    ensures { OnOk result (words.new.items ≡ words.old.items ++ made_word value.now ∷ []) }
{
    words.push(Token::spell(alloc, value)?)?;
    Ok(())
}

/// Appends a punctuation mark.
fn push_mark<'a>(alloc: Global, words: &mut Vec<Token<'a>>, punct: Punct) -> Result<(), AllocError>
    ensures { OnOk result (words.new.items ≡ words.old.items ++ made_mark punct ∷ []) }
{
    words.push(Token::mark(alloc, punct)?)?;
    Ok(())
}

/// Appends a path and a version.
fn push_pair<'a>(
    alloc: Global,
    words: &mut Vec<Token<'a>>,
    path: &ModPath,
    version: &ModVersion,
) -> Result<(), AllocError>
    ensures { OnOk result (words.new.items ≡ words.old.items ++ pair_words (path.now, version.now)) }
{
    push_word(alloc, words, path.as_str())?;
    push_word(alloc, words, version.as_str())
}

/// Appends the left side of a `replace`.
fn push_left<'a>(
    alloc: Global,
    words: &mut Vec<Token<'a>>,
    path: &ModPath,
    version: &Option<ModVersion>,
) -> Result<(), AllocError>
    ensures { OnOk result (words.new.items ≡ words.old.items ++ left_words path.now version.now) }
{
    match version {
        None => push_word(alloc, words, path.as_str()),
        Some(version) => push_pair(alloc, words, path, version),
    }
}

/// Appends the right side of a `replace`.
fn push_right<'a>(
    alloc: Global,
    words: &mut Vec<Token<'a>>,
    right: &Right,
) -> Result<(), AllocError>
    requires { IsSoundRight (right_view right.now) }
    ensures { OnOk result (words.new.items ≡ words.old.items ++ right_words (right_view right.now)) }
{
    match right {
        Right::Folder(text) => push_word(alloc, words, text.as_str()),
        Right::Module(path, version) => push_pair(alloc, words, path, version),
    }
}

/// Appends the two sides of a `replace`, with the arrow between them.
pub(crate) fn push_replace<'a>(
    alloc: Global,
    words: &mut Vec<Token<'a>>,
    replace: &Replace,
) -> Result<(), AllocError>
    requires { IsSoundRight (replace_view replace.now).1 }
    ensures { OnOk result (words.new.items ≡ words.old.items ++ replace_words (replace_view replace.now)) }
{
    push_left(alloc, words, &replace.left, &replace.version)?;
    push_mark(alloc, words, Punct::Arrow)?;
    push_right(alloc, words, &replace.right)
}

/// A list of one word.
pub(crate) fn one_word<'a>(alloc: Global, value: &str) -> Result<Vec<Token<'a>>, AllocError>
    requires { HasNoLineFeed value.now }
    ensures { IfOk result (λ v. v.items ≡ made_word value.now ∷ []) }
{
    let mut words = Vec::new(alloc);
    push_word(alloc, &mut words, value)?;
    Ok(words)
}

/// The words of a path and a version.
pub(crate) fn pair_words<'a>(
    alloc: Global,
    path: &ModPath,
    version: &ModVersion,
) -> Result<Vec<Token<'a>>, AllocError>
    ensures { IfOk result (λ v. v.items ≡ pair_words (path.now, version.now)) }
{
    let mut words = Vec::new(alloc);
    push_pair(alloc, &mut words, path, version)?;
    Ok(words)
}

/// The words of a `replace`.
pub(crate) fn replace_words<'a>(
    alloc: Global,
    replace: &Replace,
) -> Result<Vec<Token<'a>>, AllocError>
    requires { IsSoundRight (replace_view replace.now).1 }
    ensures { IfOk result (λ v. v.items ≡ replace_words (replace_view replace.now)) }
{
    let mut words = Vec::new(alloc);
    push_replace(alloc, &mut words, replace)?;
    Ok(words)
}

/// Appends a punctuation mark and a version.
fn push_marked<'a>(
    alloc: Global,
    words: &mut Vec<Token<'a>>,
    punct: Punct,
    version: &ModVersion,
) -> Result<(), AllocError>
    ensures { OnOk result (words.new.items ≡ words.old.items ++ made_mark punct ∷ made_word version.now ∷ []) }
{
    push_mark(alloc, words, punct)?;
    push_word(alloc, words, version.as_str())
}

/// Appends two versions in brackets, with a comma between them.
fn push_ends<'a>(
    alloc: Global,
    words: &mut Vec<Token<'a>>,
    low: &ModVersion,
    high: &ModVersion,
) -> Result<(), AllocError>
    ensures { OnOk result (words.new.items
        ≡ words.old.items ++ made_mark Punct.LeftBracket ∷ made_word low.now ∷ made_mark Punct.Comma
        ∷ made_word high.now ∷ made_mark Punct.RightBracket ∷ []) }
{
    push_marked(alloc, words, Punct::LeftBracket, low)?;
    push_marked(alloc, words, Punct::Comma, high)?;
    push_mark(alloc, words, Punct::RightBracket)
}

/// The words of an interval: one version if both ends are equal, and both in brackets otherwise.
pub(crate) fn interval_words<'a>(
    alloc: Global,
    ends: &Interval,
) -> Result<Vec<Token<'a>>, AllocError>
    ensures { IfOk result (λ v. v.items ≡ interval_words (interval_view ends.now)) }
{
    let mut words = Vec::new(alloc);
    if ends.low == ends.high {
        push_word(alloc, &mut words, ends.low.as_str())?;
    } else {
        push_ends(alloc, &mut words, &ends.low, &ends.high)?;
    }
    Ok(words)
}
