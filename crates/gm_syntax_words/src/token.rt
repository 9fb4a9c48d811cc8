//! Words, with their spans in the source. Read ones are slices of the source, so that reading copies no text; edits
//! make ones that own their text.

ghost use Rattle.std.specs.Prelude.{◌≡◌, ◌+◌, length, IfOk, Some, None};
ghost use Rattle.gm_syntax_words.specs.Words.{is_mark, IsShaped, HasValue, mark_text};
ghost use Rattle.gm_syntax_words.specs.Lines.{HasNoLineFeed};
ghost use Rattle.std.specs.Cow.{cow_str_bytes};
ghost use Rattle.gm_syntax_words.specs.Bare.{new_word};
ghost use Rattle.gm_syntax_words.specs.Tokens.{bytes_of, span_of, IsNewWord};

use crate::scan::can_be_bare;
use crate::spell::{quoted, string_value};
use crate::word::{Kind, Punct, Span, mark_text};
use std::alloc::{AllocError, Global};
use std::borrow::CowStr;
use std::marker::Model;

/// The spelling of a word.
#[derive(Drop)]
pub(crate) enum Text<'a> {
    /// A slice of the source, and the byte offset there of its first byte. It fits 32 bits, as
    /// `read_line` requires.
    Source(&'a str, u32),
    /// A text made by an edit.
    Own(String),
}

impl<'a> Text<'a> {
    /// The text itself. Takes no memory.
    fn as_str(&self) -> &str
        ensures { result.now ≡ bytes_of self.now }
    {
        match self {
            Text::Source(text, _) => text,
            Text::Own(text) => text.as_str(),
        }
    }

    /// A copy with the same text and the same span. Fails only if memory runs out.
    fn copy(&self, alloc: Global) -> Result<Text<'a>, AllocError>
        ensures bytes { IfOk result (λ t. bytes_of t ≡ bytes_of self.now) }
        ensures span { IfOk result (λ t. span_of t ≡ span_of self.now) }
    {
        match self {
            Text::Source(text, first) => Ok(Text::Source(*text, *first)),
            Text::Own(text) => Ok(Text::Own(String::from_str(alloc, text.as_str())?)),
        }
    }
}

/// A word of a line: punctuation, a string or a bare word (Go Modules Reference, "go.mod files", lexical
/// elements).
#[derive(Drop)]
pub struct Token<'a> {
    /// The spelling of the word. It always has a shape of the kind.
    text: Text<'a>,
    /// The kind of the word.
    kind: Kind,
    /// The number of its line in the source, counted from 1, or 0 for a word made by an edit.
    line: u32,
}

impl<'a> Model for Token<'a> {
    ghost use Rattle.gm_syntax_words.specs.Words.{IsShaped};
    ghost use Rattle.gm_syntax_words.specs.Tokens.{Placed, bytes_of, span_of};

    ghost Value = { Placed };

    ghost view = { λ t.
        record { word = record { kind = t.kind; spelling = bytes_of t.text }; line = t.line; span = span_of t.text } };

    ghost invariant = { λ t. IsShaped (record { kind = t.kind; spelling = bytes_of t.text }) };
}

impl<'a> Token<'a> {
    /// The word of the source with this text, whose first byte is at the byte offset `first`, on the line with
    /// number `line`. The text must have a shape of the kind.
    pub fn in_source(kind: Kind, text: &'a str, first: u32, line: u32) -> Token<'a>
        requires { IsShaped (record { kind = kind; spelling = text.now }) }
        ensures { result ≡ record {
          word = record { kind = kind; spelling = text.now };
          line = line;
          span = Some (record { first = first; after = first + length text.now });
        } }
    {
        Token {
            text: Text::Source(text, first),
            kind,
            line,
        }
    }

    /// A new word with the given value, for an edit. It is a bare word if the value can be one: not empty,
    /// without `//` and `/*`, not starting with `=>`, and with only characters that bare words may have.
    /// Otherwise it is a string in `"`, with a backslash before each `"` and each backslash. The reference lets
    /// bare words and strings stand for each other.
    ///
    /// The value must not contain a line feed. The word has line 0 and no span. Fails only if memory runs out.
    pub fn spell(alloc: Global, value: &str) -> Result<Token<'a>, AllocError>
        requires { HasNoLineFeed value.now }
        ensures is_new { IfOk result (λ t. IsNewWord value.now t) }
        ensures value { IfOk result (λ t. t ≡ record { word = new_word value.now; line = 0; span = None }) }
    {
        if can_be_bare(value.as_bytes()) {
            return Ok(Token {
                text: Text::Own(String::from_str(alloc, value)?),
                kind: Kind::Bare,
                line: 0,
            });
        }
        Ok(Token {
            text: Text::Own(quoted(alloc, value)?),
            kind: Kind::Text,
            line: 0,
        })
    }

    /// A new punctuation word, for an edit, with line 0 and no span. Fails only if memory runs out.
    pub fn mark(alloc: Global, punct: Punct) -> Result<Token<'a>, AllocError>
        ensures { IfOk result (λ t. t
            ≡ record { word = record { kind = Kind.Mark; spelling = mark_text punct }; line = 0; span = None }) }
    {
        Ok(Token {
            text: Text::Own(String::from_str(alloc, mark_text(punct))?),
            kind: Kind::Mark,
            line: 0,
        })
    }

    /// The kind of the word.
    pub fn kind(&self) -> Kind
        ensures { result ≡ self.now.word.kind }
    {
        self.kind
    }

    /// Whether the word is the punctuation that consists of this one byte. Takes no memory.
    pub fn is_mark(&self, byte: u8) -> bool
        ensures { result ≡ is_mark byte self.now.word }
    {
        match self.kind {
            Kind::Mark => match self.spelling().as_bytes() {
                [b] => *b == byte,
                _ => false,
            },
            Kind::Bare => false,
            Kind::Text => false,
        }
    }

    /// The text of the word as written on its line, with the quotes of a string. Takes no memory.
    pub fn spelling(&self) -> &str
        ensures { result.now ≡ self.now.word.spelling }
    {
        self.text.as_str()
    }

    /// The value of the word. A bare word or punctuation has its text as its value. A string has the text
    /// between its quotes or grave accents; in quotes, the backslashes that escape are left out. Only a string
    /// with an escape takes memory, and the call fails only if that runs out.
    pub fn value(&self, alloc: Global) -> Result<CowStr<'_>, AllocError>
        ensures { IfOk result (λ text. HasValue self.now.word (cow_str_bytes text)) }
    {
        match self.kind {
            Kind::Bare => Ok(CowStr::Borrowed(self.text.as_str())),
            Kind::Text => string_value(alloc, self.text.as_str()),
            Kind::Mark => Ok(CowStr::Borrowed(self.text.as_str())),
        }
    }

    /// The span of the word in the source, or `None` for a word made by an edit. Takes no memory.
    pub fn span(&self) -> Option<Span>
        ensures { result ≡ self.now.span }
    {
        match &self.text {
            Text::Source(text, first) => {
                let first = *first as usize;
                Some(Span {
                    first,
                    after: first + text.len(),
                })
            }
            Text::Own(_) => None,
        }
    }

    /// The number of its line in the source, counted from 1, or 0 for a word made by an edit.
    pub fn line(&self) -> usize
        ensures { result ≡ self.now.line }
    {
        self.line as usize
    }

    /// A copy with the same kind, spelling, line and span. Fails only if memory runs out.
    pub fn copy(&self, alloc: Global) -> Result<Token<'a>, AllocError>
        ensures { IfOk result (λ t. t ≡ self.now) }
    {
        Ok(Token {
            text: self.text.copy(alloc)?,
            kind: self.kind,
            line: self.line,
        })
    }
}
