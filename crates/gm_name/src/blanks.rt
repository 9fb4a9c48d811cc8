//! Cutting a line into words at blanks: its first word, and the rest.
//!
//! Files that list names have lines of words: those of a proxy that list versions, and go.sum files. Their bytes
//! need not be UTF-8, so words are cut from bytes here, and each caller checks the words that it uses.

ghost use Rattle.std.specs.Prelude.{◌≡◌, ◌≤◌, length};
ghost use Rattle.std.specs.List.{position_or_len, prefix_len};
ghost use Rattle.gm_name.specs.Cuts.{IsCut, prepend_word};
ghost use Rattle.gm_name.specs.Lines.{after_blanks, fields, first_word, is_blank_byte};

/// Whether a byte is a blank: a space, a tab or a CR.
fn is_blank_byte(byte: u8) -> bool
    ensures { result ≡ is_blank_byte byte }
{
    byte == b' ' || byte == b'\t' || byte == b'\r'
}

/// The number of blanks at the start of a line.
#[tactic(auto, using(crate::proofs::Prefixes::prefixes))]
fn leading_blanks(line: &[u8]) -> usize
    ensures count { result ≡ prefix_len is_blank_byte line.now }
    ensures within { result ≤ length line.now }
{
    for (len, byte) in line.iter().enumerate() {
        if !is_blank_byte(*byte) {
            return len;
        }
    }
    line.len()
}

/// The number of bytes before the first blank, or the line's length if it has none.
fn bytes_before_blank(line: &[u8]) -> usize
    ensures count { result ≡ position_or_len is_blank_byte line.now }
    ensures within { result ≤ length line.now }
{
    line.iter()
        .take_while(|byte| !is_blank_byte(**byte))
        .count()
}

/// The line without the blanks at its start.
fn after_blanks(line: &[u8]) -> &[u8]
    ensures { result.now ≡ after_blanks line.now }
{
    &line[leading_blanks(line)..]
}

/// A line's first word, and what comes after it.
#[derive(Clone, Copy)]
pub struct Cut<'a> {
    /// The word, or the empty slice if the line has none.
    pub word: &'a [u8],
    /// The rest of the line.
    pub rest: &'a [u8],
}

/// Cuts the first word off a line, with the blanks before it. The rest is empty or begins with a blank; its words
/// are the line's other words, in order.
///
/// Words are separated by spaces, tabs and CRs. The result borrows from the line; each byte up to the word's end is
/// looked at once.
pub fn cut_word(line: &[u8]) -> Cut<'_>
    ensures word { result.word.now ≡ first_word line.now }
    ensures cut { IsCut line.now result.word.now result.rest.now }
    ensures fields { fields line.now ≡ prepend_word (first_word line.now) (fields result.rest.now) }
{
    let words = after_blanks(line);
    let end = bytes_before_blank(words);
    Cut {
        word: &words[..end],
        rest: &words[end..],
    }
}

/// The first word of a line, or the empty slice if the line has no word.
///
/// Words are separated by spaces, tabs and CRs. The result borrows from the line; time is linear in the bytes up
/// to the word's end.
pub fn first_word(line: &[u8]) -> &[u8]
    ensures { result.now ≡ first_word line.now }
{
    cut_word(line).word
}
