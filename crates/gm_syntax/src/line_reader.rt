//! Reading a document line by line: each line is given away before the next one is read, so that a document can be
//! read without keeping its lines.

ghost use Rattle.std.specs.Prelude.{◌≡◌, ◌≢◌, ◌+◌, ◌<◌, ◌≤◌, ◌-◌, ◌^◌, ◌∷◌, ◌++◌, [], ℕ, List, length, drop, IfOk, IfErr, IfSome, IfNone, None, IsSome, OnErr};
ghost use Rattle.gm_syntax_words.specs.Tokens.{Placed, AreSlicesBetween, AreNumbered};
ghost use Rattle.gm_syntax_words.specs.Lines.{lines_of, HasNoLineFeed};
ghost use Rattle.gm_syntax.specs.LineViews.{line_of, tokens_of};
ghost use Rattle.gm_syntax.specs.Private.Reader.{line_len, IsLineReadAs};
ghost use Rattle.gm_syntax.specs.Parsed.{IsParsedAs};
ghost use Rattle.gm_syntax.specs.Placing.{FillsLine};
ghost use Rattle.gm_syntax.specs.Document.{Line as LineOf};
ghost use Rattle.gm_syntax.specs.LineReading.{HasRead, IsNextRead, IsRestRead};
ghost use Rattle.gm_syntax.specs.SimpleLines.{IsSimpleRead};

use crate::line::{Line, classify, keep_memory};
use crate::place::Place;
use crate::simple_line::{SimpleLine, simple_line};
use gm_syntax_words::{LineSyntaxFault, SyntaxFault, SyntaxKind, Token, read_line};
use memchr::memchr;
use std::alloc::Global;
use std::marker::Model;
use std::{mem, str};

/// The greatest number of bytes that a file may have. The reference sets no bound. This one limits the memory
/// that an untrusted file can take, which is up to a hundred times its size if each line has a byte or two.
pub const MAX_BYTES: usize = 16_777_216;

/// A reader of the lines of a go.mod, one after the other.
///
/// It keeps no line. `recycle` takes a line back, so that the words of the next one use its memory.
#[derive(Drop)]
pub struct LineReader<'a> {
    /// The allocator for the words of the lines.
    alloc: Global,
    /// The whole text.
    text: &'a str,
    /// The text from the next line on.
    rest: &'a str,
    /// The place of the next line.
    place: Place,
    /// An empty list, whose memory serves for the words of the next line.
    words: Vec<Token<'a>>,
}

impl<'a> Model for LineReader<'a> {
    ghost use Rattle.std.specs.Prelude.{◌≡◌, ◌+◌, ◌≤◌, [], length};
    ghost use Rattle.gm_syntax.specs.LineReading.{Unread};

    ghost Value = { Unread };

    ghost view = { λ r. record { source = r.text.now; rest = r.rest.now; at = r.place } };

    ghost invariant = { λ r. (r.words.items ≡ []) × (length r.text.now ≤ 16777216) × (1 ≤ r.place.number)
        × (r.place.number + length r.rest.now ≤ length r.text.now + 1) };
}

impl<'a> LineReader<'a> {
    /// A reader of the lines of these bytes. Takes no memory.
    ///
    /// Fails with `TooMany` if there are more than `MAX_BYTES` bytes, otherwise with `NotUtf8` if they are not UTF-8.
    pub fn new(alloc: Global, bytes: &'a [u8]) -> Result<LineReader<'a>, SyntaxFault>
        ensures source { IfOk result (λ reader. reader.source ≡ bytes.now) }
        ensures start { IfOk result (λ reader. HasRead reader []) }
        ensures fault { IfErr result (λ fault. IsParsedAs bytes.now (Err fault)) }
        ensures memory { result ≢ Err SyntaxFault.NoMemory }
    {
        if bytes.len() > MAX_BYTES {
            return Err(SyntaxFault::TooMany);
        }
        let text = match str::from_utf8(bytes) {
            Ok(text) => text,
            Err(_) => return Err(SyntaxFault::NotUtf8),
        };
        Ok(LineReader {
            alloc,
            text,
            rest: text,
            place: Place::start(),
            words: Vec::new(alloc),
        })
    }

    /// The next line, or `None` after the last one. The lines in turn are the document of the bytes, as `Doc::parse`
    /// reads it.
    ///
    /// Fails with the fault that `Doc::parse` reports, which is the fault of the next line, or after the last line
    /// `OpenBlock`, or with `NoMemory`. After a failure, and after the last line, the reader is unchanged.
    pub fn next(&mut self) -> Result<Option<Line<'a>>, SyntaxFault>
        ensures next { (lines : List (LineOf Placed)) → HasRead self.old lines → IsNextRead self.new lines result }
        ensures source { self.new.source ≡ self.old.source }
        ensures shorter { IfOk result (λ line. IsSome line → length self.new.rest < length self.old.rest) }
        ensures end { IfOk result (λ line. IfNone line (self.new ≡ self.old)) }
        ensures err { OnErr result (self.new ≡ self.old) }
    {
        if self.rest.is_empty() {
            if self.place.is_inside() {
                return Err(SyntaxFault::Syntax {
                    line: self.place.opened(),
                    kind: SyntaxKind::OpenBlock,
                });
            }
            return Ok(None);
        }
        let first = self.text.len() - self.rest.len();
        let (front, after) = split_first_line(self.rest);
        match read_line_at(self.alloc, &mut self.words, self.place, front, first) {
            Ok(line) => {
                self.place = self.place.after(&line);
                self.rest = after;
                Ok(Some(line))
            }
            Err(fault) => Err(fault.at_line(self.place.number())),
        }
    }

    /// The next line, if it is simple: an empty one, one of two bare words or of this verb and two, an opening of a block
    /// of this verb, or a closing parenthesis alone. It takes a fraction of the time of `next`, and no memory.
    ///
    /// `None`, and a reader that is unchanged, for every other line, for some unusual lines of these forms, and after the
    /// last line: `next` reads these.
    pub fn next_simple(&mut self, verb: &str) -> Option<SimpleLine<'a>>
        ensures read { IfSome result (λ line. (lines : List (LineOf Placed)) → HasRead self.old lines
            → IsSimpleRead self.new lines verb.now line) }
        ensures source { self.new.source ≡ self.old.source }
        ensures shorter { IfSome result (λ line. length self.new.rest < length self.old.rest) }
        ensures none { IfNone result (self.new ≡ self.old) }
    {
        if self.rest.is_empty() {
            return None;
        }
        let first = self.text.len() - self.rest.len();
        let (front, after) = split_first_line(self.rest);
        let line = simple_line(self.place, first, front, verb)?;
        self.place = self.place.after_simple(&line);
        self.rest = after;
        Some(line)
    }

    /// Takes a line back, so that the next one can use the memory of its words.
    // Inlined, so that the line isn't moved.
    #[inline(always)]
    pub fn recycle(&mut self, line: Line<'a>)
        ensures { self.new ≡ self.old }
    {
        if let Line::Entry(words, _) = line {
            keep_memory(&mut self.words, words);
        }
    }

    /// Reads the remaining lines and drops them. Fails as `next` does at the first fault; the lines before it
    /// have been read then.
    pub fn skip_rest(&mut self) -> Result<(), SyntaxFault>
        ensures rest { (lines : List (LineOf Placed)) → HasRead self.old lines → IsRestRead self.new lines result }
        ensures source { self.new.source ≡ self.old.source }
    {
        while let Some(line) = self.next()? {
            self.recycle(line);
        }
        Ok(())
    }

    /// The number of lines that have been read, which is also the number of the last of them.
    pub fn lines_read(&self) -> usize
        ensures { (lines : List (LineOf Placed)) → HasRead self.now lines → result ≡ length lines }
    {
        self.place.number() - 1
    }

    /// The number of bytes from the next line on.
    pub(crate) fn bytes_left(&self) -> usize
        ensures { result ≡ length self.now.rest }
    {
        self.rest.len()
    }
}

/// The length of the first line in bytes, without its line feed.
fn line_len(bytes: &[u8]) -> usize
    ensures { result ≡ line_len bytes.now }
{
    memchr(b'\n', bytes).unwrap_or(bytes.len())
}

/// The first line without its line feed, and the text after that line feed. The text must not be empty.
// Inlined, since each line goes through here.
#[inline(always)]
fn split_first_line(text: &str) -> (&str, &str)
    requires { 0 < length text.now }
    ensures lines { lines_of text.now ≡ result.0.now ∷ lines_of result.1.now }
    ensures no_line_feed { HasNoLineFeed result.0.now }
    ensures shorter { length result.1.now < length text.now }
    ensures in_range { length result.0.now + length result.1.now ≤ length text.now }
    ensures front { (after : List ℕ) × (text.now ≡ result.0.now ++ after) }
    ensures suffix { result.1.now ≡ drop (length text.now - length result.1.now) text.now }
    ensures line_feed { 0 < length result.1.now
        → length text.now ≡ length result.0.now + 1 + length result.1.now }
{
    let (line, after) = text.split_at(line_len(text.as_bytes()));
    if after.is_empty() {
        return (line, after);
    }
    let (_, next) = after.split_at(1);
    (line, next)
}

/// Reads the line at this place. Its text begins at the byte offset `first` of the source. The empty list `words`
/// gives its memory to the words of the line.
fn read_line_at<'a>(
    alloc: Global,
    words: &mut Vec<Token<'a>>,
    place: Place,
    text: &'a str,
    first: usize,
) -> Result<Line<'a>, LineSyntaxFault>
    requires empty { words.old.items ≡ [] }
    requires in_range { first + length text.now < 2 ^ 32 }
    requires number_in_range { place.number < 2 ^ 32 }
    ensures empty { words.new.items ≡ [] }
    ensures read { IsLineReadAs place.inside text.now result }
    ensures placed { IfOk result (λ line. (source after : List ℕ) → drop first source ≡ text.now ++ after
        → AreSlicesBetween source first (first + length text.now) (tokens_of (line_of line))) }
    ensures numbered { IfOk result (λ line. AreNumbered place.number (tokens_of (line_of line))) }
    ensures filled { IfOk result (λ line. FillsLine first text.now (line_of line)) }
{
    let list = mem::replace(words, Vec::new(alloc));
    let parts = read_line(list, text, first, place.number())?;
    match classify(place.is_inside(), parts, words) {
        Ok(line) => Ok(line),
        Err(kind) => Err(LineSyntaxFault::Syntax(kind)),
    }
}
