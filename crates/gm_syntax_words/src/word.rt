//! The kinds of words, punctuation and spans: the parts of a word that need no text of their own.

ghost use Rattle.std.specs.Prelude.{◌≡◌};
ghost use Rattle.gm_syntax_words.specs.Words.{mark_text};

/// The kind of a word (Go Modules Reference, "go.mod files", lexical elements).
#[derive(Clone, Copy)]
pub enum Kind {
    /// A word that is neither a string nor punctuation.
    Bare,
    /// A string in quotes or in grave accents.
    Text,
    /// Punctuation: one of the words of `Punct`.
    Mark,
}

/// The span of a word in its source, as byte offsets counted from 0.
#[derive(Clone, Copy)]
pub struct Span {
    /// The offset of the first byte of the word.
    pub first: usize,
    /// The offset just past the last byte of the word.
    pub after: usize,
}

/// A punctuation word.
#[derive(Clone, Copy)]
pub enum Punct {
    /// `(`
    LeftParen,
    /// `)`
    RightParen,
    /// `[`
    LeftBracket,
    /// `]`
    RightBracket,
    /// `,`
    Comma,
    /// `=>`
    Arrow,
}

/// The spelling of a punctuation word.
pub(crate) fn mark_text(punct: Punct) -> &'static str
    ensures { result.now ≡ mark_text punct }
{
    match punct {
        Punct::LeftParen => "(",
        Punct::RightParen => ")",
        Punct::LeftBracket => "[",
        Punct::RightBracket => "]",
        Punct::Comma => ",",
        Punct::Arrow => "=>",
    }
}
