//! The scanner: decides what the rest of a line begins with, which is a blank, a word, a comment, the end of
//! the line or a fault.

ghost use Rattle.std.specs.Prelude.{◌≡◌, ◌⊎◌, ◌↔◌, ◌&&◌, [], ◌∷◌, ℕ, List, IsTrue, not, slice_index, ◌+◌, ◌<◌, ◌≤◌, length, drop, take, IfOk};
ghost use Rattle.gm_syntax_words.specs.Bytes.{is_blank, is_bracket_or_comma, is_quote, is_bad, is_word_byte, is_plain};
ghost use Rattle.gm_syntax_words.specs.Private.Scan.{quoted_len, raw_len, piece_of, trim_end, plain_len};
ghost use Rattle.gm_syntax_words.specs.Bare.{opens_comment, bare_len, can_be_bare};

use crate::fault::SyntaxKind;
use crate::word::Kind;

/// What a text begins with. Only clauses name it outside of this crate.
#[derive(Clone, Copy)]
pub enum Piece {
    /// Nothing: the text is empty.
    End,
    /// A blank: a space, a tab or a carriage return.
    Blank,
    /// A comment, which runs to the end of the line.
    Comment,
    /// A word of this kind, with its length in bytes.
    Word(Kind, usize),
    /// A lexical fault.
    Fault(SyntaxKind),
}

/// Whether the byte alone is a punctuation word.
#[tactic(auto, unfolding(crate::specs::Bytes::is_bracket_or_comma))]
fn is_bracket_or_comma(b: u8) -> bool
    ensures { result ≡ is_bracket_or_comma b }
{
    b == b'(' || b == b')' || b == b'[' || b == b']' || b == b','
}

/// Whether the byte begins a string.
#[tactic(auto, unfolding(crate::specs::Bytes::is_quote))]
fn is_quote(b: u8) -> bool
    ensures { result ≡ is_quote b }
{
    b == b'"' || b == b'`'
}

/// Whether the byte is allowed only in strings and comments: a control byte other than tab and carriage return,
/// or `{` or `}`.
#[tactic(auto, unfolding(crate::specs::Bytes::is_bad))]
fn is_bad(b: u8) -> bool
    ensures { result ≡ is_bad b }
{
    (b < 32 && !(b == b'\t' || b == b'\r')) || b == 127 || b == b'{' || b == b'}'
}

/// The flag of the blanks.
const BLANK: u8 = 4;

/// The flag of the bytes that may be in a bare word.
const WORD: u8 = 2;

/// The flag of the plain bytes among them.
const PLAIN: u8 = 1;

/// The classes of the bytes: for each byte a digit, which has these flags.
static CLASSES: [u8; 256] = *b"\
    00000000040004000000000000000000\
    43033333003303323333333333333233\
    33333333333333333333333333303033\
    03333333333333333333333333303030\
    33333333333333333333333333333333\
    33333333333333333333333333333333\
    33333333333333333333333333333333\
    33333333333333333333333333333333";

/// Whether the byte is a blank. A carriage return is one, so that files written on Windows are read like
/// others.
fn is_blank(b: u8) -> bool
    ensures { result ≡ is_blank b }
{
    CLASSES[b as usize] & BLANK != 0
}

/// Whether the byte may be in a bare word. The bytes of characters beyond ASCII may.
fn is_word_byte(b: u8) -> bool
    ensures { result ≡ is_word_byte b }
{
    CLASSES[b as usize] & WORD != 0
}

/// Whether the text begins with `//` or `/*`.
fn opens_comment(bytes: &[u8]) -> bool
    ensures { result ≡ opens_comment bytes.now }
{
    match bytes {
        [b'/', b'/' | b'*', ..] => true,
        _ => false,
    }
}

/// Whether the byte begins or continues a bare word wherever it occurs. All word bytes do, except a slash, which may
/// open a comment, and an equals sign, which may begin an arrow. This one test replaces the others for nearly all bytes.
fn is_plain(b: u8) -> bool
    ensures { result ≡ is_plain b }
{
    CLASSES[b as usize] & PLAIN != 0
}

/// Whether a bare word continues at index `n`.
fn goes_on(bytes: &[u8], n: usize) -> bool
    requires { n < length bytes.now }
    ensures { result ≡ (is_word_byte (slice_index bytes.now n) && not (opens_comment (drop n bytes.now))) }
{
    is_word_byte(bytes[n]) && !opens_comment(&bytes[n..])
}

/// The index of the first byte at or after the index `from` that isn't plain, or the number of the bytes.
// Four bytes in a step, since most of the bytes of a file go through here: a step of one byte spends half of its time
// on the count.
fn plain_end(bytes: &[u8], from: usize) -> usize
    requires { from ≤ length bytes.now }
    ensures in_range { from ≤ result × result ≤ length bytes.now }
    ensures run { result + bare_len (drop result bytes.now) ≡ from + bare_len (drop from bytes.now) }
{
    let mut n = from;
    while bytes.len() - n >= 4 {
        if !is_plain(bytes[n]) {
            return n;
        }
        if !is_plain(bytes[n + 1]) {
            return n + 1;
        }
        if !is_plain(bytes[n + 2]) {
            return n + 2;
        }
        if !is_plain(bytes[n + 3]) {
            return n + 3;
        }
        n += 4;
    }
    while n < bytes.len() && is_plain(bytes[n]) {
        n += 1;
    }
    n
}

/// The number of bytes from the start that a bare word takes: up to a byte that it may not have, or to `//` or
/// `/*`.
// A good part of the time of scanning is spent here. Inlined, it would update the scanner's state at each byte.
#[inline(never)]
pub fn bare_len(bytes: &[u8]) -> usize
    ensures { result ≡ bare_len bytes.now }
{
    let mut n = plain_end(bytes, 0);
    while n < bytes.len() && goes_on(bytes, n) {
        n = plain_end(bytes, n + 1);
    }
    n
}

/// The length of the rest of a string after its opening quote, including the closing one. Fails with
/// `BadEscape` at a backslash before a character other than a quote or a backslash, and with `OpenString` if
/// the text ends first.
fn quoted_len(bytes: &[u8]) -> Result<usize, SyntaxKind>
    ensures value { result ≡ quoted_len bytes.now }
    ensures in_range { IfOk result (λ len. len ≤ length bytes.now) }
{
    let mut n = 0;
    while n < bytes.len() {
        let b = bytes[n];
        if b == b'"' {
            return Ok(n + 1);
        }
        if b == b'\\' {
            if n + 1 == bytes.len() {
                return Err(SyntaxKind::OpenString);
            }
            let c = bytes[n + 1];
            if c != b'"' && c != b'\\' {
                return Err(SyntaxKind::BadEscape);
            }
            n += 2;
        } else {
            n += 1;
        }
    }
    Err(SyntaxKind::OpenString)
}

/// The length of the rest of a raw string after its opening grave accent, including the closing one. Fails with
/// `OpenString` if there is no closing one.
fn raw_len(bytes: &[u8]) -> Result<usize, SyntaxKind>
    ensures value { result ≡ raw_len bytes.now }
    ensures in_range { IfOk result (λ len. len ≤ length bytes.now) }
{
    for (n, b) in bytes.iter().enumerate() {
        if *b == b'`' {
            return Ok(n + 1);
        }
    }
    Err(SyntaxKind::OpenString)
}

/// Whether the text begins with an opening parenthesis.
pub fn begins_opening(bytes: &[u8]) -> bool
    ensures { IsTrue result ↔ ((more : List ℕ) × (bytes.now ≡ 40 ∷ more)) }
{
    match bytes {
        [b'(', ..] => true,
        _ => false,
    }
}

/// Whether the text begins with a blank.
pub fn begins_blank(bytes: &[u8]) -> bool
    ensures { IsTrue result ↔ ((b : ℕ) × (more : List ℕ) × (bytes.now ≡ b ∷ more) × IsTrue (is_blank b)) }
{
    match bytes {
        [b, ..] => is_blank(*b),
        [] => false,
    }
}

/// Whether the text begins with a plain byte, and so with a bare word.
pub fn begins_plain(bytes: &[u8]) -> bool
    ensures { IsTrue result ↔ ((b : ℕ) × (more : List ℕ) × (bytes.now ≡ b ∷ more) × IsTrue (is_plain b)) }
{
    match bytes {
        [b, ..] => is_plain(*b),
        [] => false,
    }
}

/// Whether the text is empty or begins with a comment.
pub fn ends_line(bytes: &[u8]) -> bool
    ensures { IsTrue result ↔ (bytes.now ≡ []) ⊎ ((more : List ℕ) × (bytes.now ≡ 47 ∷ 47 ∷ more)) }
{
    match bytes {
        [] => true,
        [b'/', b'/', ..] => true,
        _ => false,
    }
}

/// What the text begins with. `after_bare` says whether it directly follows a bare word, where no string may
/// begin.
#[tactic(auto, unfolding(crate::specs::Private::Scan::piece_of))]
pub(crate) fn piece_of(after_bare: bool, bytes: &[u8]) -> Piece
    ensures { result ≡ piece_of after_bare bytes.now }
{
    let Some((first, rest)) = bytes.split_first() else {
        return Piece::End;
    };
    let b = *first;
    if is_plain(b) {
        return Piece::Word(Kind::Bare, bare_len(bytes));
    }
    if is_blank(b) {
        return Piece::Blank;
    }
    if is_bracket_or_comma(b) {
        return Piece::Word(Kind::Mark, 1);
    }
    if is_quote(b) {
        if after_bare {
            return Piece::Fault(SyntaxKind::BadByte);
        }
        let len = if b == b'"' {
            quoted_len(rest)
        } else {
            raw_len(rest)
        };
        return match len {
            Ok(len) => Piece::Word(Kind::Text, len + 1),
            Err(kind) => Piece::Fault(kind),
        };
    }
    if is_bad(b) {
        return Piece::Fault(SyntaxKind::BadByte);
    }
    match bytes {
        [b'/', b'/', ..] => Piece::Comment,
        [b'/', b'*', ..] => Piece::Fault(SyntaxKind::BlockComment),
        [b'=', b'>', ..] => Piece::Word(Kind::Mark, 2),
        _ => Piece::Word(Kind::Bare, bare_len(bytes)),
    }
}

/// The length of the text without the blanks at its end.
pub(crate) fn trimmed_len(bytes: &[u8]) -> usize
    ensures in_range { result ≤ length bytes.now }
    ensures text { take result bytes.now ≡ trim_end bytes.now }
{
    let mut n = bytes.len();
    while n > 0 && is_blank(bytes[n - 1]) {
        n -= 1;
    }
    n
}

/// Whether the text can be written as one bare word.
#[tactic(auto, unfolding(crate::specs::Bare::can_be_bare))]
pub(crate) fn can_be_bare(bytes: &[u8]) -> bool
    ensures { result ≡ can_be_bare bytes.now }
{
    if bytes.is_empty() {
        return false;
    }
    let arrow = match bytes {
        [b'=', b'>', ..] => true,
        _ => false,
    };
    !arrow && bare_len(bytes) == bytes.len()
}

/// The number of bytes before the first quote or backslash, which need no escape.
pub(crate) fn plain_len(bytes: &[u8]) -> usize
    ensures value { result ≡ plain_len bytes.now }
    ensures in_range { result ≤ length bytes.now }
{
    for (n, b) in bytes.iter().enumerate() {
        if *b == b'"' || *b == b'\\' {
            return n;
        }
    }
    bytes.len()
}
