//! The words of a command.

use crate::escapes::push_escaped;
use crate::faults::{BAD_WORDS, CaseFault};
use crate::numbering::{NUMBER, numbered, repetition};
use std::alloc::{AllocError, Global};
use std::{mem, str};

/// Where a byte is in the words.
#[derive(Clone, Copy)]
enum WordState {
    /// Between words.
    Between,
    /// In a word without quotes.
    Bare,
    /// In a word in `'`.
    Single,
    /// In a word in `"`.
    Double,
    /// Directly after a quote that ended a word.
    Closed,
    /// In no word. This never ends.
    Invalid,
}

/// Takes words byte by byte.
#[derive(Drop)]
struct Cutter {
    alloc: Global,
    words: Vec<Vec<u8>>,
    /// The bytes so far of the word that has begun.
    word: Vec<u8>,
    /// Those of the escape in it that has begun.
    escape: Vec<u8>,
    state: WordState,
}

impl Cutter {
    fn new(alloc: Global) -> Cutter {
        Cutter {
            alloc,
            words: Vec::new(alloc),
            word: Vec::new(alloc),
            escape: Vec::new(alloc),
            state: WordState::Between,
        }
    }

    /// Takes the text of the line of this number.
    fn take_text(&mut self, number: usize, text: &str) -> Result<(), CaseFault> {
        for byte in text.as_bytes() {
            self.take(*byte)?;
        }
        // a blank ends a word unless that is in quotes
        self.take(b' ')?;
        match self.state {
            WordState::Between => Ok(()),
            _ => Err(CaseFault::Line(number, BAD_WORDS)),
        }
    }

    /// Takes the next byte.
    fn take(&mut self, byte: u8) -> Result<(), AllocError> {
        match self.state {
            WordState::Between => self.begin(byte),
            WordState::Bare if byte == b' ' => self.end_bare(),
            WordState::Single if byte == b'\'' => self.end(WordState::Closed),
            WordState::Double if byte == b'"' && self.escape.is_empty() => {
                self.end(WordState::Closed)
            }
            WordState::Bare | WordState::Single => Ok(self.word.push(byte)?),
            WordState::Double => push_escaped(self.alloc, &mut self.word, &mut self.escape, byte),
            WordState::Closed if byte == b' ' => self.go_on(WordState::Between),
            WordState::Closed | WordState::Invalid => self.go_on(WordState::Invalid),
        }
    }

    /// Takes a byte between words.
    fn begin(&mut self, byte: u8) -> Result<(), AllocError> {
        match byte {
            b' ' => Ok(()),
            b'\'' => self.go_on(WordState::Single),
            b'"' => self.go_on(WordState::Double),
            _ => {
                self.state = WordState::Bare;
                Ok(self.word.push(byte)?)
            }
        }
    }

    /// Goes on in another state.
    fn go_on(&mut self, state: WordState) -> Result<(), AllocError> {
        self.state = state;
        Ok(())
    }

    /// Ends a word.
    fn end(&mut self, state: WordState) -> Result<(), AllocError> {
        self.state = state;
        Ok(
            self.words
                .push(mem::replace(&mut self.word, Vec::new(self.alloc)))?,
        )
    }

    /// Ends a word without quotes. One that begins with a `*` and a number stands for so many words.
    fn end_bare(&mut self) -> Result<(), AllocError> {
        if self.word.first() != Some(&b'*') {
            return self.end(WordState::Between);
        }
        let Some((count, text)) = repetition(self.word.as_slice(), "*") else {
            return self.go_on(WordState::Invalid);
        };
        for index in 0..count {
            let word = numbered(self.alloc, text, NUMBER, index.saturating_add(1), count)?;
            self.words.push(word.into_bytes())?;
        }
        self.word.clear();
        self.go_on(WordState::Between)
    }
}

/// The words of a text in the line of this number.
pub(crate) fn words_of_line(
    alloc: Global,
    number: usize,
    text: &str,
) -> Result<Vec<Vec<u8>>, CaseFault> {
    let mut cutter = Cutter::new(alloc);
    cutter.take_text(number, text)?;
    Ok(cutter.words)
}

/// Words as texts, or none if one of them is not UTF-8.
pub fn texts_of(alloc: Global, words: &[Vec<u8>]) -> Result<Option<Vec<&str>>, AllocError> {
    let mut texts = Vec::new(alloc);
    for word in words {
        let Ok(text) = str::from_utf8(word.as_slice()) else {
            return Ok(None);
        };
        texts.push(text)?;
    }
    Ok(Some(texts))
}
