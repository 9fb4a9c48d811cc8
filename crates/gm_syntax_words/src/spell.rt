//! Strings in quotes: how a value is written as one, and the value of a string.

ghost use Rattle.std.specs.Prelude.{◌≡◌, ◌++◌, ◌∷◌, [], ◌<◌, ℕ, List, length, IfOk};
ghost use Rattle.std.specs.String.{string_bytes};
ghost use Rattle.std.specs.Cow.{cow_str_bytes};
ghost use Rattle.gm_syntax_words.specs.Words.{IsString, escaped_value};

use crate::scan::plain_len;
use std::alloc::{AllocError, Global};
use std::borrow::CowStr;

/// Appends the text up to the first quote or backslash, and that character with a backslash before it. Returns
/// the rest of the text.
fn push_escaped_run<'a>(out: &mut String, rest: &'a str) -> Result<&'a str, AllocError>
    requires { 0 < length rest.now }
    ensures pushed { IfOk result (λ next. string_bytes out.new ++ escaped_value next.now
        ≡ string_bytes out.old ++ escaped_value rest.now) }
    ensures shorter { IfOk result (λ next. length next.now < length rest.now) }
{
    let (plain, after) = rest.split_at(plain_len(rest.as_bytes()));
    out.push_str(plain)?;
    if after.is_empty() {
        return Ok(after);
    }
    let (mark, next) = after.split_at(1);
    out.push_str("\\")?;
    out.push_str(mark)?;
    Ok(next)
}

/// The value in quotes, with a backslash before each quote and backslash. Fails only if memory runs out.
pub(crate) fn quoted(alloc: Global, value: &str) -> Result<String, AllocError>
    ensures { IfOk result (λ s. string_bytes s ≡ 34 ∷ (escaped_value value.now ++ 34 ∷ [])) }
{
    let mut out = String::from_str(alloc, "\"")?;
    let mut rest = value;
    while !rest.is_empty() {
        rest = push_escaped_run(&mut out, rest)?;
    }
    out.push_str("\"")?;
    Ok(out)
}

/// Appends an escaped text up to its first backslash, and the character that this backslash escapes. Returns
/// the rest of the text.
fn push_unescaped<'a>(out: &mut String, rest: &'a str) -> Result<&'a str, AllocError>
    requires filled { 0 < length rest.now }
    requires is_escaped { (value : List ℕ) × (rest.now ≡ escaped_value value) }
    ensures pushed { IfOk result (λ next. (value : List ℕ) → rest.now ≡ escaped_value value
        → (more : List ℕ) × (next.now ≡ escaped_value more)
        × (string_bytes out.new ++ more ≡ string_bytes out.old ++ value)) }
    ensures shorter { IfOk result (λ next. length next.now < length rest.now) }
{
    let (plain, after) = rest.split_at(plain_len(rest.as_bytes()));
    out.push_str(plain)?;
    if after.is_empty() {
        return Ok(after);
    }
    let (_, marked) = after.split_at(1);
    let (mark, next) = marked.split_at(1);
    out.push_str(mark)?;
    Ok(next)
}

/// The value of an escaped text: the text without the backslashes that escape.
fn unescaped(alloc: Global, text: &str) -> Result<String, AllocError>
    requires { (value : List ℕ) × (text.now ≡ escaped_value value) }
    ensures { IfOk result (λ s. text.now ≡ escaped_value (string_bytes s)) }
{
    let mut out = String::new(alloc);
    let mut rest = text;
    while !rest.is_empty() {
        rest = push_unescaped(&mut out, rest)?;
    }
    Ok(out)
}

/// The value of a string in quotes or in grave accents. It borrows from the string unless that has an escape.
/// Fails only if memory runs out.
pub(crate) fn string_value<'a>(alloc: Global, text: &'a str) -> Result<CowStr<'a>, AllocError>
    requires { (value : List ℕ) × IsString text.now value }
    ensures { IfOk result (λ s. IsString text.now (cow_str_bytes s)) }
{
    let (_, rest) = text.split_at(1);
    let (inside, _) = rest.split_at(rest.len() - 1);
    if text.as_bytes()[0] == b'`' {
        return Ok(CowStr::Borrowed(inside));
    }
    if plain_len(inside.as_bytes()) == inside.len() {
        return Ok(CowStr::Borrowed(inside));
    }
    Ok(CowStr::Owned(unescaped(alloc, inside)?))
}
