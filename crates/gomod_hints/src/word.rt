//! A word of a command line: whether it has a dash in front, and what it has in it.

ghost use Rattle.std.specs.Prelude.{◌≡◌, ◌↔◌, true};
ghost use Rattle.std.specs.Str.Iter.{HasSubslice};
ghost use Rattle.clap.specs.Lexer.{without_minus};
ghost use Rattle.gomod_hints.specs.Hints.{begins_with_dash};

/// Whether a word begins with a dash and is more than that.
pub fn begins_with_dash(word: &str) -> bool
    ensures { result ≡ begins_with_dash word.now }
{
    matches!(word.as_bytes(), [b'-', _, ..])
}

/// The word without a first dash.
pub fn without_dash(word: &str) -> &str
    ensures { result.now ≡ without_minus word.now }
{
    word.strip_prefix('-').unwrap_or(word)
}

/// Whether a word has this text in it.
pub fn has_text(word: &str, text: &str) -> bool
    ensures { (result ≡ true) ↔ HasSubslice word.now text.now }
{
    word.contains(text)
}
