//! The reader of one line: cuts it into words and a comment, piece by piece.

ghost use Rattle.std.specs.Prelude.{◌≡◌, ◌+◌, ◌<◌, ◌^◌, ◌++◌, ◌∷◌, [], ℕ, List, length, drop, IfOk, OnOk};
ghost use Rattle.gm_syntax_words.specs.Words.{is_bare};
ghost use Rattle.gm_syntax_words.specs.Tokens.{comment_of, AreSlicesBetween, AreNumbered};
ghost use Rattle.gm_syntax_words.specs.LineText.{FillText};
ghost use Rattle.gm_syntax_words.specs.ReadLine.{IsReadAs};

use crate::fault::LineSyntaxFault;
use crate::scan::{Piece, piece_of, trimmed_len};
use crate::token::Token;
use crate::word::Kind;
use std::alloc::AllocError;
use std::borrow::CowStr;

/// The words and the comment of a line.
#[derive(Drop)]
pub struct LineParts<'a> {
    /// The words, in order.
    pub words: Vec<Token<'a>>,
    /// The comment after the words, from `//` on and without the blanks at its end.
    pub comment: Option<CowStr<'a>>,
}

/// Whether a word of this kind is a bare word.
pub fn is_bare(kind: Kind) -> bool
    ensures { result ≡ is_bare kind }
{
    match kind {
        Kind::Bare => true,
        Kind::Text => false,
        Kind::Mark => false,
    }
}

/// Appends a word to the words of a line. Before the first word it reserves space for three, since most lines
/// have at most three, or for fewer if the line is shorter than three bytes.
fn push_word<'a>(
    words: &mut Vec<Token<'a>>,
    word: Token<'a>,
    line_len: usize,
) -> Result<(), AllocError>
    ensures { OnOk result (words.new.items ≡ words.old.items ++ word.entry ∷ []) }
{
    if words.is_empty() {
        words.reserve_exact(line_len.min(3))?;
    }
    words.push(word)?;
    Ok(())
}

/// Reads the words and the comment of the line with this number, which begins at the byte offset `first` of the
/// source, into a list that is empty. Fails with its leftmost lexical fault, or if memory runs out.
pub fn read_line<'a>(
    mut words: Vec<Token<'a>>,
    line: &'a str,
    first: usize,
    number: usize,
) -> Result<LineParts<'a>, LineSyntaxFault>
    requires empty { words.items ≡ [] }
    requires in_range { first + length line.now < 2 ^ 32 }
    requires number_in_range { number < 2 ^ 32 }
    ensures read { IsReadAs result line.now }
    ensures placed { IfOk result (λ parts. (source after : List ℕ) → drop first source ≡ line.now ++ after
        → AreSlicesBetween source first (first + length line.now) parts.words.items) }
    ensures numbered { IfOk result (λ parts. AreNumbered number parts.words.items) }
    ensures filled { IfOk result (λ parts. FillText first line.now parts.words.items (comment_of parts.comment)) }
{
    let mut rest = line;
    let mut after_bare = false;
    'pieces: loop {
        let at = first + (line.len() - rest.len());
        match piece_of(after_bare, rest.as_bytes()) {
            Piece::End => {
                return Ok(LineParts {
                    words,
                    comment: None,
                });
            }
            Piece::Comment => {
                let (text, _) = rest.split_at(trimmed_len(rest.as_bytes()));
                return Ok(LineParts {
                    words,
                    comment: Some(CowStr::Borrowed(text)),
                });
            }
            Piece::Fault(kind) => return Err(LineSyntaxFault::Syntax(kind)),
            Piece::Blank => {
                let (_, after) = rest.split_at(1);
                rest = after;
                after_bare = false;
            }
            Piece::Word(kind, len) => {
                let (text, after) = rest.split_at(len);
                push_word(
                    &mut words,
                    Token::in_source(kind, text, at as u32, number as u32),
                    line.len(),
                )?;
                rest = after;
                after_bare = is_bare(kind);
            }
        }
    }
}
