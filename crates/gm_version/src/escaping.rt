//! Escaped names, in which each upper-case letter is written as `!` and its lower-case form.
//!
//! Proxies and caches store modules in folders named by escaped paths and versions, so that two modules never
//! share a file on a file system that ignores case (Go Modules Reference, "GOPROXY protocol").

ghost use Rattle.std.specs.Prelude.{◌≡◌, ◌++◌, ℕ, List, IfOk, OnOk, OnErr, IsErrOf, true, encode_utf8, string_bytes};
ghost use Rattle.std.specs.Char.{is_ascii_uppercase};
ghost use Rattle.std.specs.List.{list_any};
ghost use Rattle.gm_version.specs.Escape.{AppendsBeginning, IsUnescaped, escaped_text, has_no_bang};
ghost use Rattle.gm_version.specs.Private.Texts.{escaped_char, read_so_far};
ghost use Rattle.gm_version.specs.declared.escaping.EscapeFault.TheVariants.{NoMemory};

use std::alloc::{AllocError, AllocFailed, Global};
use thiserror::Error;

/// Why `unescape` returned no text.
#[derive(Clone, Copy, Debug, PartialEq, Eq, Error)]
pub enum EscapeFault {
    /// Memory ran out.
    #[error("out of memory")]
    NoMemory,
    /// The name isn't an escaped text.
    #[error("not an escaped text")]
    BadEscape,
}

impl From<AllocError> for EscapeFault {
    ghost from_gives = { λ _ fault. fault ≡ NoMemory };

    fn from(_error: AllocError) -> EscapeFault {
        EscapeFault::NoMemory
    }
}

impl<T: Drop> From<AllocFailed<T>> for EscapeFault {
    ghost from_gives = { λ _ fault. fault ≡ NoMemory };

    fn from(_error: AllocFailed<T>) -> EscapeFault {
        EscapeFault::NoMemory
    }
}

/// Appends the escaped form of a character. Fails only when memory runs out, and then has appended a beginning of it.
fn push_escaped_char(name: &mut String, c: char) -> Result<(), AllocError>
    ensures ok { OnOk result (string_bytes name.new ≡ string_bytes name.old ++ escaped_char c) }
    ensures refused { OnErr result (AppendsBeginning (string_bytes name.old) (string_bytes name.new) (escaped_char c)) }
{
    if !c.is_ascii_uppercase() {
        name.push(c)?;
        return Ok(());
    }
    name.push('!')?;
    name.push(c.to_ascii_lowercase())?;
    Ok(())
}

/// Whether a text has an ASCII upper-case letter.
fn has_upper_case(text: &str) -> bool
    ensures { result ≡ list_any is_ascii_uppercase text.now }
{
    text.as_bytes().iter().any(|b| b.is_ascii_uppercase())
}

/// Appends the escaped text, character by character, as `push_escaped` does.
fn push_each_escaped(name: &mut String, text: &str) -> Result<(), AllocError>
    ensures ok { OnOk result (string_bytes name.new ≡ string_bytes name.old ++ escaped_text text.now) }
    ensures refused { OnErr result
        (AppendsBeginning (string_bytes name.old) (string_bytes name.new) (escaped_text text.now)) }
{
    for c in text.chars() {
        push_escaped_char(name, c)?;
    }
    Ok(())
}

/// Appends the escaped text, as `escape` gives it, to a name that is being built. Fails only when memory runs out, and
/// then has appended a beginning of the escaped text, which may be all of it or nothing.
pub fn push_escaped(name: &mut String, text: &str) -> Result<(), AllocError>
    ensures ok { OnOk result (string_bytes name.new ≡ string_bytes name.old ++ escaped_text text.now) }
    ensures refused { OnErr result
        (AppendsBeginning (string_bytes name.old) (string_bytes name.new) (escaped_text text.now)) }
{
    // Most names are in lower case already and are copied whole.
    if has_upper_case(text) {
        return push_each_escaped(name, text);
    }
    name.push_str(text)?;
    Ok(())
}

/// The text with each ASCII upper-case letter replaced by `!` and its lower-case form. Fails only when memory
/// runs out.
///
/// A `!` in the text is kept as is, but `unescape` restores only texts without one. No path and no version
/// contains one (the law `escaping_is_injective`).
pub fn escape(alloc: Global, text: &str) -> Result<String, AllocError>
    ensures { IfOk result (λ name. string_bytes name ≡ escaped_text text.now) }
{
    let mut name = String::with_capacity(alloc, text.len())?;
    push_escaped(&mut name, text)?;
    Ok(name)
}

/// Reads the next character of an escaped text and appends what it stands for. `after_bang` says whether the
/// character before it was a `!` that is still to be completed; the result says the same of this one.
/// `BadEscape` if no escaped text continues like this.
fn take_char(text: &mut String, after_bang: bool, c: char) -> Result<bool, EscapeFault>
    ensures ok { IfOk result (λ bang. read_so_far (string_bytes text.new) bang
        ≡ read_so_far (string_bytes text.old) after_bang ++ encode_utf8 c) }
    ensures no_bang { OnOk result (has_no_bang (string_bytes text.old) ≡ true
        → has_no_bang (string_bytes text.new) ≡ true) }
    ensures bad { IsErrOf result EscapeFault.BadEscape → has_no_bang (string_bytes text.old) ≡ true
        → (whole rest : List ℕ)
        → ¬ (IsUnescaped whole (read_so_far (string_bytes text.old) after_bang ++ encode_utf8 c ++ rest)) }
{
    if after_bang {
        if !c.is_ascii_lowercase() {
            return Err(EscapeFault::BadEscape);
        }
        text.push(c.to_ascii_uppercase())?;
        return Ok(false);
    }
    if c == '!' {
        return Ok(true);
    }
    if c.is_ascii_uppercase() {
        return Err(EscapeFault::BadEscape);
    }
    text.push(c)?;
    Ok(false)
}

/// The text without `!` whose escaped form is this name. There is at most one (the law `unescape_inverts_escape`).
///
/// `BadEscape` if there is none: if a `!` isn't followed by an ASCII lower-case letter, or the name has an
/// ASCII upper-case letter. `NoMemory` if memory runs out before that is found.
pub fn unescape(alloc: Global, name: &str) -> Result<String, EscapeFault>
    ensures ok { IfOk result (λ text. IsUnescaped (string_bytes text) name.now) }
    ensures bad { IsErrOf result EscapeFault.BadEscape → (text : List ℕ) → ¬ (IsUnescaped text name.now) }
{
    let mut text = String::new(alloc);
    let mut after_bang = false;
    for c in name.chars() {
        after_bang = take_char(&mut text, after_bang, c)?;
    }
    if after_bang {
        return Err(EscapeFault::BadEscape);
    }
    Ok(text)
}
