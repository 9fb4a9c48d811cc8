//! The first two numbers of go versions, which decide which rules of the module graph apply (Go Modules Reference, go
//! directive; Go Toolchains, Go versions).

ghost use Rattle.std.specs.Prelude.{◌≡◌, drop, length, take_while};
ghost use Rattle.std.specs.Char.{is_ascii_digit, is_ascii_lowercase};
ghost use Rattle.gm_file.specs.Main.{is_pruned_by};
ghost use Rattle.gm_file.specs.GoVersions.{first_number, is_go_suffix, last_number, lax_go, lax_go_text, second_number, small_number, strict_go};

use gm_name::{has_only_digits, is_decimal};

/// The number that a text of one to nine digits without leading zeros spells, or `None` for another text. Nine digits
/// always fit a `u32`.
#[tactic(auto, unfolding(crate::specs::GoVersions::small_number))]
fn small_number(text: &str) -> Option<u32>
    ensures { result ≡ small_number text.now }
{
    if !is_decimal(text.as_bytes()) {
        return None;
    }
    match text.parse::<u32>() {
        Ok(n) => { if n < 1_000_000_000 { Some(n) } else { None } }
        Err(_) => None,
    }
}

/// The first number of a go version, which is a small number other than 0, or `None` for another text.
#[tactic(auto, unfolding(crate::specs::GoVersions::first_number))]
fn first_number(text: &str) -> Option<u32>
    ensures { result ≡ first_number text.now }
{
    if text.starts_with("0") {
        return None;
    }
    small_number(text)
}

/// How many digits a text begins with.
fn digits_len(text: &[u8]) -> usize
    ensures { result ≡ length (take_while is_ascii_digit text.now) }
{
    text.iter().take_while(|b| b.is_ascii_digit()).count()
}

/// How many lower-case letters a text begins with.
fn letters_len(text: &[u8]) -> usize
    ensures { result ≡ length (take_while is_ascii_lowercase text.now) }
{
    text.iter().take_while(|b| b.is_ascii_lowercase()).count()
}

/// Whether a text may follow the last number of a go version: it is empty, or lower-case letters and then digits, at
/// least one of each, as `rc1`.
#[tactic(auto, unfolding(crate::specs::GoVersions::is_go_suffix))]
fn is_go_suffix(text: &[u8]) -> bool
    ensures { result ≡ is_go_suffix text.now }
{
    if text.is_empty() {
        return true;
    }
    let letters = letters_len(text);
    if letters == 0 || letters >= text.len() {
        return false;
    }
    has_only_digits(&text[letters..])
}

/// The digits that a text begins with, and the rest.
fn split_digits(text: &str) -> (&str, &str)
    ensures digits { result.0.now ≡ take_while is_ascii_digit text.now }
    ensures rest { result.1.now ≡ drop (length (take_while is_ascii_digit text.now)) text.now }
{
    text.split_at(digits_len(text.as_bytes()))
}

/// The last number of a go version, which a suffix such as `rc1` may follow, or `None` for another text.
#[tactic(auto, unfolding(crate::specs::GoVersions::last_number))]
fn last_number(text: &str) -> Option<u32>
    ensures { result ≡ last_number text.now }
{
    let (digits, rest) = split_digits(text);
    if !is_go_suffix(rest.as_bytes()) {
        return None;
    }
    small_number(digits)
}

/// The second number of a go version from the text after its first dot: `M` or `M.P`. A suffix may follow the last
/// number. `None` for another text.
#[tactic(auto, unfolding(crate::specs::GoVersions::second_number))]
fn second_number(text: &str) -> Option<u32>
    ensures { result ≡ second_number text.now }
{
    match text.split_once('.') {
        None => last_number(text),
        Some((second, third)) => {
            last_number(third)?;
            small_number(second)
        }
    }
}

/// The first two numbers of a go version in a main file (Go Modules Reference, "go directive"), or `None` for a
/// text that is not a go version.
///
/// Go versions are `N.M` and `N.M.P`, as `1.21` and `1.21.3`, and a suffix of lower-case letters and digits may follow
/// the last number, as in `1.21rc1`. Each number has one to nine digits and no leading zeros, and the first is not 0.
#[tactic(auto, unfolding(crate::specs::GoVersions::strict_go))]
pub fn strict_go(text: &str) -> Option<(u32, u32)>
    ensures { result ≡ strict_go text.now }
{
    let (first, rest) = text.split_once('.')?;
    Some((first_number(first)?, second_number(rest)?))
}

/// The first two numbers of a go version in a dependency's file, after its optional `v`, or `None` for another text.
#[tactic(auto, unfolding(crate::specs::GoVersions::lax_go_text))]
fn lax_go_text(text: &str) -> Option<(u32, u32)>
    ensures { result ≡ lax_go_text text.now }
{
    let (first, rest) = text.split_once('.')?;
    let (second, _) = split_digits(rest);
    Some((first_number(first)?, small_number(second)?))
}

/// The first two numbers of a go version in a dependency's file, or `None` for another text. A `v` may precede the
/// version, and any text that doesn't begin with a digit may follow the second number.
#[tactic(auto, unfolding(crate::specs::GoVersions::lax_go))]
pub(crate) fn lax_go(text: &str) -> Option<(u32, u32)>
    ensures { result ≡ lax_go text.now }
{
    match text.strip_prefix('v') {
        Some(rest) => lax_go_text(rest),
        None => lax_go_text(text),
    }
}

/// Whether a file with these first two numbers is pruned (Go Modules Reference, "Module graph pruning").
pub(crate) fn is_pruned(go: (u32, u32)) -> bool
    ensures { result ≡ is_pruned_by go }
{
    go >= (1, 17)
}
