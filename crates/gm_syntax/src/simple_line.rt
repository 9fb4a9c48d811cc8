//! A short way to read the lines that a file has most: empty ones, two or three bare words, with blanks around them and
//! perhaps a comment, and the lines that open and close a block. A line is read in one pass, and no list of words is made.

ghost use Rattle.std.specs.Prelude.{◌≡◌, ◌++◌, ◌+◌, ◌<◌, ◌^◌, ℕ, List, Bool, false, IfSome, IsTrue, length};
ghost use Rattle.gm_syntax_words.specs.Words.{AllBlank, IsBare};
ghost use Rattle.gm_syntax_words.specs.Private.Scan.{piece_of};
ghost use Rattle.gm_syntax_words.specs.declared.scan.Piece.TheVariants as piece;
ghost use Rattle.gm_syntax_words.specs.declared.word.Kind.TheVariants as kind;
ghost use Rattle.gm_syntax.specs.Private.SimpleLines.{bare_at, IsOpeningEnd, IsSimpleText};
ghost use Rattle.gm_syntax.specs.declared.simple_line.SimpleLine.TheVariants as simple;

use crate::place::Place;
use gm_syntax_words::{
    Kind, Token, bare_len, begins_blank, begins_opening, begins_plain, ends_line,
};

/// A line that is read without a list of words.
#[derive(Drop)]
pub enum SimpleLine<'a> {
    /// An empty line.
    Blank,
    /// Two bare words, perhaps with a comment.
    Pair(&'a str, &'a str),
    /// The two bare words after the verb that was asked for, perhaps with a comment.
    PairAfter(&'a str, &'a str),
    /// The opening of a block, whose verb is the one that was asked for, perhaps with a comment.
    Opening(Token<'a>),
    /// A closing parenthesis alone.
    Closing,
}

/// The text after the blanks at its start.
fn after_blanks(text: &str) -> &str
    ensures { (blanks : List ℕ) × AllBlank blanks × (text.now ≡ blanks ++ result.now) }
{
    let mut rest = text;
    while begins_blank(rest.as_bytes()) {
        let (_, after) = rest.split_at(1);
        rest = after;
    }
    rest
}

/// The bare word that the text begins with, and the text after it and after the blanks that follow it; `None` also for
/// some texts that begin with one.
fn split_word(text: &str) -> Option<(&str, &str)>
    ensures word { IfSome result (λ split. (after_bare : Bool) → piece_of after_bare text.now
        ≡ piece.Word kind.Bare (length split.0.now)) }
    ensures bare { IfSome result (λ split. IsBare split.0.now) }
    ensures parts { IfSome result (λ split. (blanks : List ℕ) × AllBlank blanks
        × (text.now ≡ split.0.now ++ (blanks ++ split.1.now))) }
{
    let bytes = text.as_bytes();
    if !begins_plain(bytes) {
        return None;
    }
    let (word, after) = text.split_at(bare_len(bytes));
    Some((word, after_blanks(after)))
}

/// Whether the text is an opening parenthesis, with perhaps a comment after it; `false` also for some such texts.
fn is_opening_end(text: &str) -> bool
    ensures { IsTrue result → IsOpeningEnd text.now }
{
    if !begins_opening(text.as_bytes()) {
        return false;
    }
    let (_, after) = text.split_at(1);
    ends_line(after_blanks(after).as_bytes())
}

/// The simple line without bare words that this text is at this place, if it is one.
fn line_without_words<'a>(place: Place, text: &str) -> Option<SimpleLine<'a>>
    ensures { IfSome result (λ line. (offset : ℕ) (verb : List ℕ) → IsSimpleText place offset text.now verb line) }
{
    match text.as_bytes() {
        [] => Some(SimpleLine::Blank),
        [b')'] if place.is_inside() => Some(SimpleLine::Closing),
        _ => None,
    }
}

/// The opening of a block of this verb, if no block is open at this place and the text after the verb completes the
/// opening. The verb begins at the byte offset `offset` of the source.
fn opening_line<'a>(
    place: Place,
    offset: usize,
    verb: &'a str,
    after_verb: &str,
) -> Option<SimpleLine<'a>>
    requires in_range { offset < 2 ^ 32 }
    requires number_in_range { place.number < 2 ^ 32 }
    requires bare { IsBare verb.now }
    ensures { IfSome result (λ line. (place.inside ≡ false) × IsOpeningEnd after_verb.now
        × (line ≡ simple.Opening (bare_at offset place.number verb.now))) }
{
    if place.is_inside() || !is_opening_end(after_verb) {
        return None;
    }
    let token = Token::in_source(Kind::Bare, verb, offset as u32, place.number() as u32);
    Some(SimpleLine::Opening(token))
}

/// The simple line that this text is at this place, if it is one; `None` also for some simple lines. An opening, and a
/// line of three words, must have the verb. The text begins at the byte offset `offset` of the source.
pub(crate) fn simple_line<'a>(
    place: Place,
    offset: usize,
    text: &'a str,
    verb: &str,
) -> Option<SimpleLine<'a>>
    requires in_range { offset + length text.now < 2 ^ 32 }
    requires number_in_range { place.number < 2 ^ 32 }
    ensures { IfSome result (IsSimpleText place offset text.now verb.now) }
{
    let start = after_blanks(text);
    let Some((first, after_first)) = split_word(start) else {
        return line_without_words(place, text);
    };
    let Some((second, after_second)) = split_word(after_first) else {
        if first != verb || start.len() != text.len() {
            return None;
        }
        return opening_line(place, offset, first, after_first);
    };
    if ends_line(after_second.as_bytes()) {
        return Some(SimpleLine::Pair(first, second));
    }
    if first != verb {
        return None;
    }
    let (third, after_third) = split_word(after_second)?;
    if !ends_line(after_third.as_bytes()) {
        return None;
    }
    Some(SimpleLine::PairAfter(second, third))
}
