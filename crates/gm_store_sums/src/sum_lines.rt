//! The lines of a go.sum: which are valid, and the hashes that they list.

ghost use Rattle.std.specs.Prelude.{◌≡◌, ◌≢◌, ◌<◌, ◌≤◌, ℕ, List, length, map, true, Ok, IfNone, IfOk, IfSome, MatchOption};
ghost use Rattle.std.specs.Str.{is_utf8};
ghost use Rattle.gm_name.specs.Lines.{fields, lines};
ghost use Rattle.gm_store_sums.specs.Private.Lines.{AddsGiven, AreFields, Gives, HoldsSums};
ghost use Rattle.gm_store_sums.specs.Sums.{HasValidLines, IsFirstInvalid, are_valid_fields, lines_before_invalid};
ghost use Rattle.gm_store_sums.specs.Order.{triple};

use crate::sum_table::{SumFault, SumLine};
use gm_name::{NoMemory, cut_word};
use std::alloc::Global;

/// The fields of a line.
#[derive(Clone, Copy)]
pub(crate) enum SumFields<'a> {
    /// The line has no fields.
    Blank,
    /// The line has three fields: the path, the version and the hash.
    Three(&'a [u8], &'a [u8], &'a [u8]),
    /// The line has one, two or more than three fields.
    Other,
}

/// Splits a line into its fields.
fn fields_of(line: &[u8]) -> SumFields<'_>
    ensures { AreFields result (fields line.now) }
{
    let path = cut_word(line);
    if path.word.is_empty() {
        return SumFields::Blank;
    }
    let version = cut_word(path.rest);
    if version.word.is_empty() {
        return SumFields::Other;
    }
    let hash = cut_word(version.rest);
    if hash.word.is_empty() {
        return SumFields::Other;
    }
    let more = cut_word(hash.rest);
    if !more.word.is_empty() {
        return SumFields::Other;
    }
    SumFields::Three(path.word, version.word, hash.word)
}

/// Whether a field is UTF-8.
fn is_text(word: &[u8]) -> bool
    ensures { result ≡ is_utf8 word.now }
{
    str::from_utf8(word).is_ok()
}

/// Whether the fields of a line are none or three of UTF-8.
fn are_valid(found: SumFields<'_>) -> bool
    ensures { (words : List (List ℕ)) → AreFields found.entry words → result ≡ are_valid_fields words }
{
    match found {
        SumFields::Blank => true,
        SumFields::Three(path, version, hash) => is_text(path) && is_text(version) && is_text(hash),
        SumFields::Other => false,
    }
}

/// How many lines come before the first invalid one, or `None` if all lines are valid.
fn first_invalid_line(text: &[u8]) -> Option<usize>
    ensures found { MatchOption result (HasValidLines text.now)
        (λ before. (before ≡ lines_before_invalid text.now) × (before < length (lines text.now))) }
    ensures within { IfSome result (λ before. before ≤ length text.now) }
{
    text.split(|byte| *byte == b'\n')
        .position(|line| !are_valid(fields_of(line)))
}

/// Why the lines of a text make no table: one of them is invalid, or memory ran out.
pub(crate) fn fault_of(text: &[u8]) -> SumFault
    ensures few { result ≢ SumFault.TooMany }
    ensures bad { (number : ℕ) → result ≡ SumFault.BadSum number → IsFirstInvalid text.now number }
    ensures no_memory { result ≡ SumFault.NoMemory → HasValidLines text.now }
{
    match first_invalid_line(text) {
        Some(before) => SumFault::BadSum { line: before + 1 },
        None => SumFault::NoMemory,
    }
}

/// The hash that the fields of a line list for a module's go.mod, or `None` if they list none. Hashes of other kinds
/// than `h1:` are skipped.
fn sum_in(found: SumFields<'_>) -> Option<SumLine<'_>>
    ensures some { (words : List (List ℕ)) → AreFields found.entry words
        → IfSome result (λ sum. Gives words sum.path.now sum.version.now sum.hash.now) }
    ensures none { (words : List (List ℕ)) → AreFields found.entry words
        → IfNone result ((path version hash : List ℕ) → ¬ (Gives words path version hash)) }
{
    let SumFields::Three(path, version, hash) = found else {
        return None;
    };
    let version = version.strip_suffix(b"/go.mod".as_slice())?;
    if !hash.starts_with(b"h1:") {
        return None;
    }
    Some(SumLine {
        path,
        version,
        hash,
    })
}

/// Appends the hash that a line lists for a go.mod, if it lists one, and tells whether the line is valid. Fails only
/// when memory runs out.
fn push_sum<'a>(sums: &mut Vec<SumLine<'a>>, line: &'a [u8]) -> Result<bool, NoMemory>
    ensures valid { IfOk result (λ valid. valid ≡ are_valid_fields (fields line.now)) }
    ensures added { result ≡ Ok true
        → AddsGiven (fields line.now) (map triple sums.old.items) (map triple sums.new.items) }
{
    let found = fields_of(line);
    if !are_valid(found) {
        return Ok(false);
    }
    if let Some(sum) = sum_in(found) {
        sums.push(sum)?;
    }
    Ok(true)
}

/// The hashes that the lines of a text list for go.mod files, or `None` if a line is invalid. Fails only when memory
/// runs out, perhaps before an invalid line is reached.
pub(crate) fn sums_of(alloc: Global, text: &[u8]) -> Result<Option<Vec<SumLine<'_>>>, NoMemory>
    ensures sums { IfOk result (λ found. IfSome found (λ sums. HoldsSums (map triple sums.items) text.now)) }
    ensures valid { IfOk result (λ found. IfSome found (λ _. HasValidLines text.now)) }
{
    let mut sums = Vec::new(alloc);
    for line in text.split(|byte| *byte == b'\n') {
        if !push_sum(&mut sums, line)? {
            return Ok(None);
        }
    }
    Ok(Some(sums))
}
