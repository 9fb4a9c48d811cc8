//! The verbs of directives, which depend on how a file is read, and the tests for the arrow and the folder of a
//! `replace`.

ghost use Rattle.std.specs.Prelude.{◌≡◌};
ghost use Rattle.gm_file.specs.Directives.{dependency_verb, is_arrow, main_verb, verb_in};
ghost use Rattle.gm_file.specs.Values.{is_folder_path};
ghost use Rattle.gm_file.specs.VerbViews.{mode_view};

use gm_syntax::{Kind, Token};

/// How a file is read (Go Modules Reference, go.mod files): strictly, as the main file, or laxly, as a dependency's
/// file.
#[derive(Clone, Copy)]
pub enum Mode {
    /// Every verb must be known, and every entry well-formed.
    Strict,
    /// `module`, `go` and `require` must be well-formed. A malformed `retract` retracts nothing, and any other verb is
    /// skipped.
    Lax,
}

/// The verb of an entry, as far as reading distinguishes them.
#[derive(Clone, Copy)]
pub enum Verb {
    /// `module`.
    Module,
    /// `go`.
    Go,
    /// `require`.
    Require,
    /// `exclude`.
    Exclude,
    /// `replace`.
    Replace,
    /// `retract`.
    Retract,
    /// A verb whose entries may have any arguments and have no effect.
    Nothing,
    /// A verb that no directive has.
    Unknown,
}

/// The verb of a main file that is spelled like this (Go Modules Reference, go.mod files).
pub fn main_verb(text: &str) -> Verb
    ensures { result ≡ main_verb text.now }
{
    match text {
        "module" => Verb::Module,
        "go" => Verb::Go,
        "require" => Verb::Require,
        "exclude" => Verb::Exclude,
        "replace" => Verb::Replace,
        "retract" => Verb::Retract,
        "toolchain" => Verb::Nothing,
        "godebug" => Verb::Nothing,
        "tool" => Verb::Nothing,
        "ignore" => Verb::Nothing,
        _ => Verb::Unknown,
    }
}

/// The verb of a dependency's file that is spelled like this. `retract` is skipped here, since its faults don't count:
/// `retractions` reads it separately.
fn dependency_verb(text: &str) -> Verb
    ensures { result ≡ dependency_verb text.now }
{
    match text {
        "module" => Verb::Module,
        "go" => Verb::Go,
        "require" => Verb::Require,
        _ => Verb::Nothing,
    }
}

/// The verb that is spelled like this, in a file that is read in this mode.
pub(crate) fn verb_in(mode: Mode, text: &str) -> Verb
    ensures { result ≡ verb_in (mode_view mode) text.now }
{
    match mode {
        Mode::Strict => main_verb(text),
        Mode::Lax => dependency_verb(text),
    }
}

/// Whether the right side of a `replace` is a folder rather than a module path (Go Modules Reference, "replace
/// directive"): `.`, `..`, or a text that begins with `./`, `../` or `/`.
#[tactic(auto, unfolding(crate::specs::Values::is_folder_path))]
pub fn is_folder(text: &str) -> bool
    ensures { result ≡ is_folder_path text.now }
{
    text == "."
        || text == ".."
        || text.starts_with("./")
        || text.starts_with("../")
        || text.starts_with("/")
}

/// Whether a word is the arrow `=>` between the sides of a `replace`. In quotes it is an ordinary text.
pub(crate) fn is_arrow(token: &Token) -> bool
    ensures { result ≡ is_arrow token.now.word }
{
    match token.kind() {
        Kind::Mark => token.spelling() == "=>",
        Kind::Bare => false,
        Kind::Text => false,
    }
}
